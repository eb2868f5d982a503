// The direction that a word says.
ghost use Rattle.std.specs.Prelude.{◌≡◌, ◌≢◌, MatchOption};
ghost use Rattle.npf_types.specs.declared.direction.Dir.{Dir as DirType};
ghost use Rattle.npf_ctl_script.specs.Commands.{direction_text};

use npf_types::Dir;

/// The direction that the word names.
pub(crate) fn direction_of(word: &[u8]) -> Option<Dir>
    ensures { MatchOption result ((dir : DirType) → word.now ≢ direction_text dir) (λ dir. word.now ≡ direction_text dir) }
{
    match word {
        b"in" => Some(Dir::In),
        b"out" => Some(Dir::Out),
        _ => None,
    }
}
