// Where each word of the table lies.
ghost use Rattle.std.specs.Prelude.{◌≡◌, ◌+◌, ◌<◌};
ghost use Rattle.npf_cells_words.specs.Codes.{place_code};
ghost use Rattle.npf_cells_words.specs.Places.{IsLockOf, lock_at};
ghost use Rattle.npf_cells_words.specs.Places.{IsInTrie, place_at};
ghost use Rattle.npf_cells_words.specs.Layout.{key_field, note_field, reader_at, pool_at, pool_places, pool_words, field_at, field_count, word_count};

use npf_paths::{Lock, Place};
use npf_types::Way;

/// How many slots and nodes a table has, which says where each of its words lies.
#[derive(Clone, Copy)]
pub struct Layout {
    pub slots: u32,
    pub nodes: u32,
}

/// The places that passes claim and give back.
#[derive(Clone, Copy)]
pub enum Pool {
    /// The places for connections.
    Slots,
    /// The nodes of the trie.
    Nodes,
}

/// The place of the epoch among the words.
pub const EPOCH: usize = 0;

/// The epoch of a new table.
pub const FIRST_EPOCH: u64 = 2;

/// A reader word that is idle.
pub const IDLE: u64 = 0;

/// The field of a node's state among its words.
pub const STATE: u32 = 16;

/// The field of a node's parent among its words.
pub const PARENT: u32 = 17;

/// The field of a connection's turn among its words.
pub const TURN: u32 = 0;

/// The field of a connection's incarnation among its words.
pub const INCARNATION: u32 = 1;

/// The field of a connection's phase among its words.
pub const PHASE: u32 = 2;

/// How many reader places a table has.
pub const READERS: u32 = 66;

/// The last epoch: the epoch of a table stands still there.
pub const LAST_EPOCH: u64 = 1 << 62;

impl Layout {
    /// How many words such a table has.
    pub fn words(&self) -> usize
        ensures { result ≡ word_count self.now }
    {
        let pools = (self.slots as usize + 63) / 64 + (self.nodes as usize + 63) / 64;
        1 + 66 + pools + 128 + 18 * self.nodes as usize + 21 * self.slots as usize
    }

    /// How many places a pool has.
    pub fn places(&self, pool: Pool) -> u32
        ensures { result ≡ pool_places self.now pool }
    {
        match pool {
            Pool::Slots => self.slots,
            Pool::Nodes => self.nodes,
        }
    }

    /// How many words a pool has.
    pub fn pool_words(&self, pool: Pool) -> u32
        ensures { result ≡ pool_words (pool_places self.now pool) }
    {
        words_of(self.places(pool))
    }

    /// The place of a word of a node or of a connection among the words.
    pub fn field_place(&self, pool: Pool, place: u32, field: u32) -> usize
        requires { field < field_count pool }
        ensures { result ≡ field_at self.now pool place field }
    {
        let pools = words_of(self.slots) as usize + words_of(self.nodes) as usize;
        let nodes = 67 + pools + 128;
        match pool {
            Pool::Slots => nodes + 18 * self.nodes as usize + 21 * place as usize + field as usize,
            Pool::Nodes => nodes + 18 * place as usize + field as usize,
        }
    }

    /// The place of a place of the trie among the words.
    pub fn trie_place(&self, place: Place) -> usize
        requires { IsInTrie self.now place }
        ensures { result ≡ place_at self.now place }
    {
        match place {
            Place::Root(digit) => {
                67 + words_of(self.slots) as usize + words_of(self.nodes) as usize + digit as usize
            }
            Place::Node { node, digit } => self.field_place(Pool::Nodes, node, digit),
        }
    }

    /// The place of a lock among the words.
    pub fn lock_place(&self, lock: Lock) -> usize
        requires { IsLockOf self.now lock }
        ensures { result ≡ lock_at self.now lock }
    {
        match lock {
            Lock::Root(digit) => {
                67 + words_of(self.slots) as usize
                    + words_of(self.nodes) as usize
                    + 64
                    + digit as usize
            }
            Lock::Node(node) => self.field_place(Pool::Nodes, node, STATE),
        }
    }

    /// The place of a pool's word among the words.
    pub fn pool_place(&self, pool: Pool, word: u32) -> usize
        ensures { result ≡ pool_at self.now pool + word }
    {
        match pool {
            Pool::Slots => 67 + word as usize,
            Pool::Nodes => 67 + words_of(self.slots) as usize + word as usize,
        }
    }
}

/// How many words the bits of so many places take.
fn words_of(places: u32) -> u32
    ensures { result ≡ pool_words places }
{
    places.div_ceil(64)
}

/// The number by which words name a place of the trie.
pub fn place_code(place: Place) -> u64
    ensures { result ≡ place_code place }
{
    match place {
        Place::Root(digit) => 1 + digit as u64,
        Place::Node { node, digit } => 65 + 16 * node as u64 + digit as u64,
    }
}

/// The place of a reader word among the words.
pub fn reader_place(reader: u32) -> usize
    ensures { result ≡ reader_at reader }
{
    1 + reader as usize
}

/// The field of the note of a way among a connection's words.
pub fn note_field(way: Way) -> u32
    ensures { result ≡ note_field way }
{
    match way {
        Way::Forward => 18,
        Way::Backward => 19,
        Way::Port => 20,
    }
}

/// The field of a word of a way's key among a connection's words.
pub fn key_field(way: Way, word: u32) -> u32
    requires { word < 5 }
    ensures { result ≡ key_field way + word }
{
    match way {
        Way::Forward => 3 + word,
        Way::Backward => 8 + word,
        Way::Port => 13 + word,
    }
}
