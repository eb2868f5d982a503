// What stands in a place, and the word that says so.
ghost use Rattle.std.specs.Prelude.{◌≡◌};
ghost use Rattle.npf_paths.specs.CellWords.{way_number, way_numbered, cell_word, cell_of, IsCellWord};

use npf_types::Way;

/// What stands in a place: nothing, a connection's key, a node, or the mark of an emptied node that was unlinked.
#[derive(Clone, Copy, Debug, PartialEq, Eq)]
pub enum Cell {
    Empty,
    Leaf { slot: u32, way: Way },
    Node(u32),
    Mark,
}

impl Cell {
    /// The word that a place with this cell has.
    pub fn word(self) -> u64
        ensures { result ≡ cell_word self }
    {
        match self {
            Cell::Empty => 0,
            Cell::Leaf { slot, way } => (u64::from(slot) * 3 + way_number(way)) * 4 + 1,
            Cell::Node(node) => u64::from(node) * 4 + 2,
            Cell::Mark => 3,
        }
    }

    /// The cell of a place that has this word.
    pub fn of_word(word: u64) -> Cell
        requires { IsCellWord word }
        ensures { result ≡ cell_of word }
    {
        let number = word / 4;
        match word % 4 {
            1 => Cell::Leaf {
                slot: (number / 3) as u32,
                way: way_numbered(number % 3),
            },
            2 => Cell::Node(number as u32),
            3 => Cell::Mark,
            _ => Cell::Empty,
        }
    }
}

/// A way's number in a leaf's word.
fn way_number(way: Way) -> u64
    ensures { result ≡ way_number way }
{
    match way {
        Way::Forward => 0,
        Way::Backward => 1,
        Way::Port => 2,
    }
}

/// The way with this number.
fn way_numbered(number: u64) -> Way
    ensures { result ≡ way_numbered number }
{
    match number {
        0 => Way::Forward,
        1 => Way::Backward,
        _ => Way::Port,
    }
}
