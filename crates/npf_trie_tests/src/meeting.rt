// Keys of UDP, which meet in the trie since their hash is one.
ghost use Rattle.npf_cells.specs.Cells.{IsPassIn};
ghost use Rattle.npf_trie_tests.specs.Hands.{IsEmptyHanded};

use crate::answers::{put, same};
use crate::by_protocol::ByProtocol;
use crate::holders::{find, open};
use npf_cells::{CellPass, Cells};
use npf_epoch::enter;
use npf_flow::FlowLaw;
use npf_types::Key;
use std::alloc::Global;
use std::sync::Wait;
use std::test::Fail;

// UDP from 10.0.0.1 to 8.8.8.8, port 53, from the ports 40000, 40001 and 40016. In their half-bytes the first two part at level 26,
// and the third parts from both at level 25.
const FIRST: Key = Key([0x0411_0001_9c40_0035, 0, 0x0a00_0001, 0, 0x0808_0808]);

const SECOND: Key = Key([0x0411_0001_9c41_0035, 0, 0x0a00_0001, 0, 0x0808_0808]);

const THIRD: Key = Key([0x0411_0001_9c50_0035, 0, 0x0a00_0001, 0, 0x0808_0808]);

// These part from the first at level 16, in the version, the second half-byte of all, and at level 94, in the last one.
const OTHER_VERSION: Key = Key([0x0611_0001_9c40_0035, 0, 0x0a00_0001, 0, 0x0808_0808]);

const OTHER_HOST: Key = Key([0x0411_0001_9c40_0035, 0, 0x0a00_0001, 0, 0x0808_0809]);

#[derive(Clone, Copy)]
enum Act {
    /// A connection in the next slot asks for the key.
    Open(Key),
    /// The key's holder is looked up.
    Find(Key),
}

// Tables, by their slots and nodes, and what is done with each.
const CASES: [(u32, u32, &[Act]); 10] = [
    // a key is found where it parts from another, past the hash
    (
        4,
        26,
        &[
            Act::Find(FIRST),
            Act::Open(FIRST),
            Act::Open(SECOND),
            Act::Find(FIRST),
            Act::Find(SECOND),
            Act::Find(THIRD),
            Act::Open(FIRST),
            Act::Open(SECOND),
        ],
    ),
    // a hold that found too few nodes leaves the table as it was, and has given back those that it took: the next one needs them all
    (
        4,
        25,
        &[
            Act::Open(FIRST),
            Act::Open(SECOND),
            Act::Find(FIRST),
            Act::Find(SECOND),
            Act::Open(THIRD),
            Act::Find(FIRST),
            Act::Find(THIRD),
            Act::Open(SECOND),
        ],
    ),
    // two keys that part at a level need a node for each level down to it, and one that is held needs none; a table has 16 nodes at least
    (2, 16, &[Act::Open(FIRST), Act::Open(FIRST)]),
    (2, 16, &[Act::Open(FIRST), Act::Open(OTHER_VERSION)]),
    (2, 24, &[Act::Open(FIRST), Act::Open(THIRD)]),
    (2, 25, &[Act::Open(FIRST), Act::Open(THIRD)]),
    (2, 25, &[Act::Open(FIRST), Act::Open(SECOND)]),
    (2, 26, &[Act::Open(FIRST), Act::Open(SECOND)]),
    (2, 93, &[Act::Open(FIRST), Act::Open(OTHER_HOST)]),
    (2, 94, &[Act::Open(FIRST), Act::Open(OTHER_HOST)]),
];

const ANSWERS: &str = "None
Some((ConnId { slot: 0, inc: 1 }, Done))
Some((ConnId { slot: 1, inc: 1 }, Done))
Some(Found { id: ConnId { slot: 0, inc: 1 }, way: Forward })
Some(Found { id: ConnId { slot: 1, inc: 1 }, way: Forward })
None
Some((ConnId { slot: 2, inc: 1 }, Taken(Found { id: ConnId { slot: 0, inc: 1 }, way: Forward })))
Some((ConnId { slot: 3, inc: 1 }, Taken(Found { id: ConnId { slot: 1, inc: 1 }, way: Forward })))

Some((ConnId { slot: 0, inc: 1 }, Done))
Some((ConnId { slot: 1, inc: 1 }, NoNode))
Some(Found { id: ConnId { slot: 0, inc: 1 }, way: Forward })
None
Some((ConnId { slot: 2, inc: 1 }, Done))
Some(Found { id: ConnId { slot: 0, inc: 1 }, way: Forward })
Some(Found { id: ConnId { slot: 2, inc: 1 }, way: Forward })
Some((ConnId { slot: 3, inc: 1 }, NoNode))

Some((ConnId { slot: 0, inc: 1 }, Done))
Some((ConnId { slot: 1, inc: 1 }, Taken(Found { id: ConnId { slot: 0, inc: 1 }, way: Forward })))

Some((ConnId { slot: 0, inc: 1 }, Done))
Some((ConnId { slot: 1, inc: 1 }, Done))

Some((ConnId { slot: 0, inc: 1 }, Done))
Some((ConnId { slot: 1, inc: 1 }, NoNode))

Some((ConnId { slot: 0, inc: 1 }, Done))
Some((ConnId { slot: 1, inc: 1 }, Done))

Some((ConnId { slot: 0, inc: 1 }, Done))
Some((ConnId { slot: 1, inc: 1 }, NoNode))

Some((ConnId { slot: 0, inc: 1 }, Done))
Some((ConnId { slot: 1, inc: 1 }, Done))

Some((ConnId { slot: 0, inc: 1 }, Done))
Some((ConnId { slot: 1, inc: 1 }, NoNode))

Some((ConnId { slot: 0, inc: 1 }, Done))
Some((ConnId { slot: 1, inc: 1 }, Done))

";

fn tell_act(
    rt: &impl Wait,
    cells: &Cells<FlowLaw, ByProtocol>,
    pass: &mut CellPass<FlowLaw>,
    act: Act,
    told: &mut String,
) -> Result<(), Fail>
    requires own { IsPassIn cells.now pass.old }
    requires hands { IsEmptyHanded pass.old.seat.me.0 }
    ensures own { IsPassIn cells.now pass.new }
    ensures hands { IsEmptyHanded pass.new.seat.me.0 }
{
    match act {
        Act::Open(key) => put(told, &open(rt, cells, pass, key)),
        Act::Find(key) => put(told, &find(cells, pass, key)),
    }
}

// What each act is answered in a table of so many slots and nodes.
fn tell_acts(
    rt: &impl Wait,
    alloc: Global,
    slots: u32,
    nodes: u32,
    acts: &[Act],
    told: &mut String,
) -> Result<(), Fail> {
    if !(1..=65_536).contains(&slots) || !(16..=262_144).contains(&nodes) {
        return Err("no table has so many slots and nodes".into());
    }
    let (cells, mut pass) = Cells::<FlowLaw, ByProtocol>::new(alloc, slots, nodes)?;
    enter(&cells, &mut pass);
    for act in acts {
        tell_act(rt, &cells, &mut pass, *act, told)?;
    }
    Ok(())
}

#[test]
fn keys_meet(rt: HostRuntime) -> Result<(), Fail> {
    let mut told = String::new(rt.alloc());
    for (slots, nodes, acts) in &CASES {
        tell_acts(&rt, rt.alloc(), *slots, *nodes, acts, &mut told)?;
        told.push('\n')?;
    }
    same(&rt, told.as_str(), ANSWERS);
    Ok(())
}
