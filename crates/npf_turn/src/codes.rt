// The number that a note has for a place.
ghost use Rattle.std.specs.Prelude.{◌≡◌, ◌≤◌, ◌<◌, ◌+◌, ◌*◌, IfSome};
ghost use Rattle.npf_cells_words.specs.Codes.{place_code};
ghost use Rattle.npf_cells_words.specs.Places.{IsInTrie};

use npf_cells::Layout;
use npf_paths::Place;

/// The number of the first place of the first node: those of the root's places are lower.
const NODES: u64 = 65;

/// The place of the trie that has this number.
pub(crate) fn place_of(layout: Layout, code: u64) -> Place
    requires some { 1 ≤ code }
    requires within { code < 65 + 16 * layout.nodes }
    ensures is { place_code result ≡ code }
    ensures within { IsInTrie layout result }
{
    if code < NODES {
        return Place::Root((code - 1) as u32);
    }
    let at = code - NODES;
    prove!(at / 16 < layout.nodes as u64);
    Place::Node {
        node: (at / 16) as u32,
        digit: (at % 16) as u32,
    }
}

/// The place that has this number, if one has it.
pub(crate) fn place_named(layout: Layout, code: u64) -> Option<Place>
    ensures is { IfSome result (λ place. place_code place ≡ code) }
    ensures within { IfSome result (IsInTrie layout) }
{
    if code == 0 || code >= NODES + 16 * u64::from(layout.nodes) {
        return None;
    }
    Some(place_of(layout, code))
}
