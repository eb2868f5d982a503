// A branch that parts two keys.
ghost use Rattle.std.specs.Prelude.{◌≡◌, ◌≢◌, ◌+◌, ◌≤◌, ◌<◌, ℕ, [], ◌∷◌, length, slice_index, Contains};
ghost use Rattle.npf_paths.specs.Digits.{PartsAt};
ghost use Rattle.npf_paths.specs.declared.cell.Cell.TheVariants.{Mark};
ghost use Rattle.npf_paths.specs.declared.place.Place.TheVariants.{Node};
ghost use Rattle.npf_paths.specs.Growing.{IsBranch};
ghost use Rattle.npf_cells.specs.Cells.{IsPassIn};
ghost use Rattle.npf_cells_rule.specs.Views.{with_pools};
ghost use Rattle.npf_cells_holds.specs.PublishKinds.{IsParentStored, cell_stored};
ghost use Rattle.npf_cells_leaves.specs.Parents.{NameParents};
ghost use Rattle.npf_cells_leaves.specs.Trie.{digits_of};
ghost use Rattle.npf_cells_words.specs.Layout.{field_count};
ghost use Rattle.npf_cells_words.specs.declared.layout.Pool.TheVariants.{Nodes};
ghost use Rattle.npf_trie.specs.Stores.{HasNewNodes, KeepsOutside, forked_cell};

use crate::step::Point;
use npf_cells::{CellPass, Cells, Pool};
use npf_cells_words::{PARENT, place_code};
use npf_core::Law;
use npf_paths::laws::cell_law;
use npf_paths::{Cell, KeyHash, NODE_DIGITS, Place, digit};
use npf_types::Key;

/// A leaf at the foot of a branch, and the key that leads there, with its hash.
#[derive(Clone, Copy)]
pub(crate) struct Tip {
    pub(crate) hash: u64,
    pub(crate) key: Key,
    pub(crate) leaf: Cell,
}

impl Tip {
    ghost use Rattle.std.specs.Prelude.{◌≡◌, ◌<◌};
    ghost use Rattle.npf_paths.specs.Digits.{digit_of};
    ghost use Rattle.npf_paths.specs.declared.place.Place.TheVariants as Places;

    /// The place of the node to which the key leads at this level.
    pub(crate) fn place_in(&self, node: u32, level: u32) -> Place
        requires { level < 95 }
        ensures { result ≡ Places.Node node (digit_of self.now.hash self.now.key level) }
    {
        Place::Node {
            node,
            digit: digit(self.hash, &self.key, level),
        }
    }
}

/// Stores the places of nodes that the pass owns, from the last up, so that they lead two keys on: the first is to hang in this place,
/// and the last is that of the level at which the keys part, with the leaf of either. Each names the place that is to have it.
pub(crate) fn build_branch<L: Law, H: KeyHash>(
    cells: &Cells<L, H>,
    pass: &mut CellPass<L>,
    nodes: &[u32],
    point: Point,
    mine: &Tip,
    theirs: &Tip,
)
    requires own { IsPassIn cells.now pass.old }
    requires some { 1 ≤ length nodes.now }
    requires nodes { HasNewNodes cells.now.table.shared.key pass.old.seat.me.0.pools nodes.now }
    requires mine { mine.now.hash ≡ H.digest mine.now.key }
    requires theirs { theirs.now.hash ≡ H.digest theirs.now.key }
    requires real { mine.now.leaf ≢ Mark }
    requires their_real { theirs.now.leaf ≢ Mark }
    requires parts { PartsAt mine.now.hash mine.now.key theirs.now.hash theirs.now.key (point.level + length nodes.now) }
    ensures own { IsPassIn cells.now pass.new }
    ensures next { pass.new.seat.me ≡ with_pools pass.old.seat.me (record pass.old.seat.me.0.pools { stored = pass.new.seat.me.0.pools.stored }) }
    ensures branch { IsBranch (digits_of H.digest mine.now.key) (digits_of H.digest theirs.now.key) (cell_stored cells.now.table.shared.key pass.new.seat.me.0.pools.stored) mine.now.leaf theirs.now.leaf (point.level + 1) (slice_index nodes.now 0) nodes.now }
    ensures parents { NameParents (digits_of H.digest mine.now.key) (IsParentStored cells.now.table.shared.key pass.new.seat.me.0.pools.stored) (point.level + 1) point.place nodes.now }
    ensures outside { KeepsOutside cells.now.table.shared.key (field_count Nodes) nodes.now pass.old.seat.me.0.pools.stored pass.new.seat.me.0.pools.stored }
{
    if let Some((node, rest)) = nodes.split_first() {
        let at = digit(mine.hash, &mine.key, point.level + 1);
        cells.store_private(pass, Pool::Nodes, *node, PARENT, place_code(point.place));
        if rest.is_empty() {
            let other_at = digit(theirs.hash, &theirs.key, point.level + 1);
            fill_node(cells, pass, *node, at, mine.leaf, other_at, theirs.leaf);
        } else {
            let below = Point {
                place: Place::Node {
                    node: *node,
                    digit: at,
                },
                level: point.level + 1,
            };
            build_branch(cells, pass, rest, below, mine, theirs);
            let next = Cell::Node(rest[0]);
            fill_node(cells, pass, *node, at, next, at, next);
        }
    }
}

// Stores the 16 places of a node that the pass owns: it leads on at two digits, or at one that is both.
fn fill_node<L: Law, H: KeyHash>(
    cells: &Cells<L, H>,
    pass: &mut CellPass<L>,
    node: u32,
    mine: u32,
    leaf: Cell,
    theirs: u32,
    other: Cell,
)
    requires own { IsPassIn cells.now pass.old }
    requires exists { node < cells.now.table.shared.key.nodes }
    requires owned { Contains pass.old.seat.me.0.pools.nodes node }
    requires real { leaf ≢ Mark }
    requires other_real { other ≢ Mark }
    ensures own { IsPassIn cells.now pass.new }
    ensures next { pass.new.seat.me ≡ with_pools pass.old.seat.me (record pass.old.seat.me.0.pools { stored = pass.new.seat.me.0.pools.stored }) }
    ensures cells { (digit : ℕ) → digit < 16 → cell_stored cells.now.table.shared.key pass.new.seat.me.0.pools.stored (Node node digit) ≡ forked_cell mine leaf theirs other digit }
    ensures outside { KeepsOutside cells.now.table.shared.key 16 (node ∷ []) pass.old.seat.me.0.pools.stored pass.new.seat.me.0.pools.stored }
{
    cell_law();
    for digit in 0..NODE_DIGITS {
        let cell = forked_cell(mine, leaf, theirs, other, digit);
        cells.store_private(pass, Pool::Nodes, node, digit, cell.word());
    }
}

// The cell of a digit's place in such a node.
fn forked_cell(mine: u32, leaf: Cell, theirs: u32, other: Cell, digit: u32) -> Cell
    ensures { result ≡ forked_cell mine leaf theirs other digit }
{
    if digit == mine {
        leaf
    } else if digit == theirs {
        other
    } else {
        Cell::Empty
    }
}
