// What a walk has come to at a place.
use npf_cells::Aim;
use npf_core::{ConnId, Found, Held};
use npf_paths::{Cell, Place};
use npf_types::{Key, Way};

/// A key that is to be held for a connection, as its key of that way, with the key's hash.
#[derive(Clone, Copy, Debug, PartialEq, Eq)]
pub(crate) struct Wanted {
    pub(crate) id: ConnId,
    pub(crate) key: Key,
    pub(crate) hash: u64,
    pub(crate) way: Way,
}

/// A place of the path of that key, at this level.
#[derive(Clone, Copy, Debug, PartialEq, Eq)]
pub(crate) struct Point {
    pub(crate) place: Place,
    pub(crate) level: u32,
}

/// A leaf of another key.
#[derive(Clone, Copy, Debug, PartialEq, Eq)]
pub(crate) struct OtherLeaf {
    pub(crate) slot: u32,
    pub(crate) way: Way,
    pub(crate) key: Key,
}

/// New nodes that are to hang by the first of them in the place of the leaf of another key, and where the new leaf and that one will stand.
#[derive(Clone, Copy, Debug, PartialEq, Eq)]
pub(crate) struct Branch {
    pub(crate) other: OtherLeaf,
    pub(crate) first: u32,
    pub(crate) own_place: Place,
    pub(crate) moved_to: Place,
}

/// Whose key a leaf has that a pass met.
#[derive(Clone, Copy, Debug, PartialEq, Eq)]
pub(crate) enum LeafKey {
    /// The key itself, which has this holder.
    Holder(Found),
    /// Another key.
    Other(Key),
}

/// What a hold comes to at a place.
#[derive(Clone, Copy, Debug, PartialEq, Eq)]
pub(crate) enum Step {
    /// It ends with this answer.
    Ends(Held),
    /// This node leads on.
    Leads(u32),
    /// What stood there has changed meanwhile.
    Again,
    /// A mark stands there, or the node of the place is taken off: the key's path has to be walked anew.
    Anew,
}

impl Wanted {
    ghost use Rattle.std.specs.Prelude.{◌≡◌};
    ghost use Rattle.npf_cells_holds.specs.declared.aim.Aim.TheVariants.{Hold};
    ghost use Rattle.npf_paths.specs.declared.cell.Cell.TheVariants.{Leaf};

    /// What the pass loads and stores for.
    pub(crate) fn aim(&self) -> Aim
        ensures { result ≡ Hold self.now.id self.now.key self.now.way }
    {
        Aim::Hold {
            id: self.id,
            key: self.key,
            way: self.way,
        }
    }

    /// The leaf of the key once it is held.
    pub(crate) fn leaf(&self) -> Cell
        ensures { result ≡ Leaf self.now.id.slot self.now.way }
    {
        Cell::Leaf {
            slot: self.id.slot,
            way: self.way,
        }
    }
}

impl OtherLeaf {
    ghost use Rattle.std.specs.Prelude.{◌≡◌};
    ghost use Rattle.npf_paths.specs.declared.cell.Cell.TheVariants.{Leaf};

    pub(crate) fn cell(&self) -> Cell
        ensures { result ≡ Leaf self.now.slot self.now.way }
    {
        Cell::Leaf {
            slot: self.slot,
            way: self.way,
        }
    }
}
