// A reader in a stay, beside which another pass ends the connection that the reader found.
use crate::answers::{put, same};
use crate::building::collect;
use crate::by_protocol::ByProtocol;
use crate::keys::Draws;
use crate::lives::expire_late;
use crate::turning::{open, step_found};
use npf_cells::Cells;
use npf_epoch::{enter, leave};
use npf_flow::FlowLaw;
use npf_trie::look;
use std::alloc::Global;
use std::sync::Wait;
use std::test::Fail;

// A connection is opened, found by the reader, and ended by a third pass. Tells what was opened and
// ended; what was found, how many slots two collects free beside the reader's stay, and what its
// step comes to then; and how many a collect frees once it left, and what the slot opens next.
fn tell_last_reader(rt: &impl Wait, alloc: Global, told: &mut String) -> Result<(), Fail> {
    let (cells, mut opener) = Cells::<FlowLaw, ByProtocol>::new(alloc, 1, 16)?;
    let mut reader = cells.split(&mut opener);
    let mut ender = cells.split(&mut opener);
    let key = Draws::new().key();
    enter(&cells, &mut opener);
    let opened = open(rt, &cells, &mut opener, key);
    leave(&cells, &mut opener);
    enter(&cells, &mut reader);
    let Some(found) = look(&cells, &mut reader, 8, key) else {
        return Err("the key has no holder".into());
    };
    enter(&cells, &mut ender);
    let ended = expire_late(rt, &cells, &mut ender);
    leave(&cells, &mut ender);
    put(told, &(opened, ended))?;
    let beside = (collect(&cells, &mut ender), collect(&cells, &mut ender));
    let stepped = step_found(rt, &cells, &mut reader, found);
    put(told, &(found.id, beside, stepped))?;
    leave(&cells, &mut reader);
    let after = collect(&cells, &mut ender);
    enter(&cells, &mut opener);
    put(told, &(after, open(rt, &cells, &mut opener, key)))
}

#[test]
fn slot_comes_back_once_its_last_reader_left(rt: HostRuntime) -> Result<(), Fail> {
    let mut told = String::new(rt.alloc());
    tell_last_reader(&rt, rt.alloc(), &mut told)?;
    same(
        &rt,
        told.as_str(),
        "(Some(ConnId { slot: 0, inc: 1 }), Some(ConnId { slot: 0, inc: 1 }))
(ConnId { slot: 0, inc: 1 }, (0, 0), Some(NotLive))
(1, Some(ConnId { slot: 0, inc: 2 }))
",
    );
    Ok(())
}
