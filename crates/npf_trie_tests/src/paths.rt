// The way of a key through the trie, and what stands in its places.
use crate::answers::{put, same};
use npf_paths::{Cell, Fnv, KeyHash, Place, digit, parting_level};
use npf_types::{Key, Way};
use std::test::Fail;

// FNV-1a of the keys' bytes, as a program of its own computes it that gives af63dc4c8601ec8c for "a" and 85944171f73967e8 for
// "foobar", as the published test vectors do: 40d69e0cf0f65c45, a21cb59346b10b92, 8959e4b6f26c829d and 75a62c4aa4dec819.
fn tell_hashes(told: &mut String) -> Result<(), Fail> {
    let hashes = [
        Fnv::hash(&Key([0; 5])),
        Fnv::hash(&Key([1, 2, 3, 4, 5])),
        Fnv::hash(&Key([u64::MAX; 5])),
        Fnv::hash(&Key([0x0406_0001_0035_0035, 0, 0x0a00_0001, 0, 0x0808_0808])),
    ];
    put(told, &hashes)
}

// The hash is 0xfedcba9876543210: its lowest six bits are 0x10, and the four above them are 8.
fn tell_digits(told: &mut String) -> Result<(), Fail> {
    let hash = 0xfedc_ba98_7654_3210;
    let key = Key([0x1234_0000_0000_000f, 0xa000_0000_0000_0000, 0, 0, 0xe7]);
    let of_hash = [
        digit(hash, &key, 0),
        digit(hash, &key, 1),
        digit(hash, &key, 2),
        digit(hash, &key, 13),
        digit(hash, &key, 14),
    ];
    put(told, &of_hash)?;
    let of_key = [
        digit(hash, &key, 15),
        digit(hash, &key, 16),
        digit(hash, &key, 18),
        digit(hash, &key, 19),
        digit(hash, &key, 30),
        digit(hash, &key, 31),
        digit(hash, &key, 32),
        digit(hash, &key, 93),
        digit(hash, &key, 94),
    ];
    put(told, &of_key)
}

// Where keys and hashes part from the key of zeros with the hash 0: the last two hashes differ in no digit.
fn tell_partings(told: &mut String) -> Result<(), Fail> {
    let others = [
        (0, Key([0, 0, 0, 0, 1])),
        (0, Key([1 << 60, 0, 0, 0, 0])),
        (0, Key([1, 0, 0, 0, 1])),
        (1, Key([0; 5])),
        (1 << 5, Key([0; 5])),
        (1 << 6, Key([0; 5])),
        (1 << 61, Key([1, 0, 0, 0, 0])),
        (1 << 62, Key([0, 0, 0, 0, 1])),
        (1 << 63, Key([0; 5])),
    ];
    for (hash, other) in &others {
        put(told, &parting_level(0, &Key([0; 5]), *hash, other))?;
    }
    Ok(())
}

fn leaf(slot: u32, way: Way) -> Cell {
    Cell::Leaf { slot, way }
}

// A leaf's word is twelve times its slot, four times its way's number and 1; a node's is four times its number and 2.
fn tell_words(told: &mut String) -> Result<(), Fail> {
    let words = [
        Cell::Empty.word(),
        leaf(0, Way::Forward).word(),
        leaf(0, Way::Backward).word(),
        leaf(7, Way::Port).word(),
        leaf(u32::MAX, Way::Port).word(),
        Cell::Node(0).word(),
        Cell::Node(5).word(),
        Cell::Node(u32::MAX).word(),
        Cell::Mark.word(),
    ];
    put(told, &words)?;
    let cells = [
        Cell::of_word(93),
        Cell::of_word(5),
        Cell::of_word(22),
        Cell::of_word(0),
        Cell::of_word(3),
    ];
    put(told, &cells)?;
    put(
        told,
        &[
            Place::Root(9).lock(),
            Place::Node { node: 4, digit: 9 }.lock(),
        ],
    )
}

#[test]
fn keys_have_their_ways(rt: HostRuntime) -> Result<(), Fail> {
    let mut told = String::new(rt.alloc());
    tell_hashes(&mut told)?;
    tell_digits(&mut told)?;
    tell_partings(&mut told)?;
    tell_words(&mut told)?;
    same(
        &rt,
        told.as_str(),
        "[4672095441862941765, 11681411177643051922, 9897193130525754013, 8477512047676803097]
[16, 8, 12, 11, 15]
[1, 2, 4, 0, 15, 10, 0, 14, 7]
Some(94)
Some(15)
Some(30)
Some(0)
Some(0)
Some(1)
Some(14)
Some(94)
None
[0, 1, 5, 93, 51539607549, 2, 22, 17179869182, 3]
[Leaf { slot: 7, way: Port }, Leaf { slot: 0, way: Backward }, Node(5), Empty, Mark]
[Root(9), Node(4)]
",
    );
    Ok(())
}
