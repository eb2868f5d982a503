// Where a capture was recorded.
ghost use Rattle.std.specs.Prelude.{◌≡◌};
ghost use Rattle.npf_ctl_input.specs.Source.{first_tap};

use npf_types::{Dir, Name};

/// Where a capture was recorded: its packets passed on the interface of this name in this direction.
#[derive(Clone, Copy, Debug, PartialEq, Eq)]
pub struct NamedTap {
    pub name: Name,
    pub dir: Dir,
}

impl NamedTap {
    /// That of a capture of which nothing is told: its packets came in on the interface `cap0`.
    pub fn first() -> NamedTap
        ensures { result ≡ first_tap }
    {
        let Some(name) = Name::of(b"cap0") else {
            unreachable!()
        };
        NamedTap { name, dir: Dir::In }
    }
}
