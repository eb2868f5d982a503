// Lists that own their items.
ghost use Rattle.std.specs.Prelude.{◌≡◌};
ghost use Rattle.std.specs.Borrow.{sem};
ghost use Rattle.npf_types.specs.List.{LendsItems};

use std::marker::Model;

/// A list that owns its items. Contracts see the list of the items and nothing of its memory.
#[derive(Debug, Drop)]
pub struct List<T> {
    items: Vec<T>,
}

/// Bytes, as a file's contents or a word of a configuration. They need not be UTF-8.
pub type Text = List<u8>;

impl<T> Model for List<T> {
    ghost use Rattle.std.specs.Prelude.{List as Seq};

    ghost Value = { Seq T };

    ghost view = { λ list. list.items.items };
}

impl<T> List<T> {
    /// The list of a vector's items. It takes no memory.
    pub fn of_vec(v: Vec<T>) -> List<T>
        ensures { result ≡ v.items }
    {
        List { items: v }
    }

    /// The items as a vector. It takes no memory.
    pub fn into_vec(self) -> Vec<T>
        ensures { result.items ≡ self }
    {
        let List { items } = self;
        items
    }

    /// The items, in order.
    pub fn as_slice(&self) -> &[T]
        ensures { result.now ≡ self.now }
    {
        self.items.as_slice()
    }

    /// The items, to be changed in place: the list's length stays.
    pub fn as_mut_slice(&mut self) -> &mut [T]
        ensures* writes_back { sem 𝓛 (LendsItems T.row self.entry result) }
        ensures value { result.now ≡ self.old }
    {
        self.items.as_mut_slice()
    }
}
