// Places of the trie, and their locks.
ghost use Rattle.std.specs.Prelude.{◌≡◌};
ghost use Rattle.npf_paths.specs.Places.{lock_of};

/// A place of the trie: one of the root's 64, or of a node's 16.
#[derive(Clone, Copy, Debug, PartialEq, Eq)]
pub enum Place {
    Root(u32),
    Node { node: u32, digit: u32 },
}

/// What a pass locks before it changes a place: a place of the root alone, or a node with all its places.
#[derive(Clone, Copy, Debug, PartialEq, Eq)]
pub enum Lock {
    Root(u32),
    Node(u32),
}

impl Place {
    /// The lock that guards the place.
    pub fn lock(self) -> Lock
        ensures { result ≡ lock_of self }
    {
        match self {
            Place::Root(digit) => Lock::Root(digit),
            Place::Node { node, .. } => Lock::Node(node),
        }
    }
}
