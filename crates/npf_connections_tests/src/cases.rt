// What is put to a table, and what it answers.
ghost use Rattle.std.specs.Prelude.{◌≡◌};
ghost use Rattle.npf_connections.specs.Pass.{all_places};
ghost use Rattle.npf_connections.specs.Stay.{IsOut};
ghost use Rattle.npf_connections_tests.specs.Sum.{sum_law};

use crate::acts::{Act, answer_all};
use crate::answers::{put, same};
use crate::crowd::tell_crowds;
use crate::second_pass::{freed_beside_a_resting_pass, known_is_not_freed};
use crate::sharing::shared;
use crate::sum::{KEY, OTHER_KEY, Sum};
use npf_conndb::{Conns, Fnv};
use npf_connections::Connections;
use npf_connections_fixtures::{NewTable, OneHash};
use npf_oneturn::OneTurn;
use std::alloc::Global;
use std::sync::Wait;
use std::test::Fail;
use std::thread::Threads;

#[derive(Clone, Copy)]
enum Question {
    Acts(&'static [Act]),
    Known,
    Resting,
    Shared,
    Crowds,
}

// A table's slots, and what is put to it.
const CASES: [(u32, Question); 8] = [
    // a connection is due at 107, and the slot's next one comes once it was collected
    (
        1,
        Question::Acts(&[
            Act::Ask(KEY),
            Act::Ask(OTHER_KEY),
            Act::Step(KEY),
            Act::Step(OTHER_KEY),
            Act::Expire(106),
            Act::Expire(107),
            Act::Step(KEY),
            Act::Collect,
            Act::Ask(KEY),
        ]),
    ),
    // an abandoned connection gives its key up at once, and its slot by a collection
    (
        1,
        Question::Acts(&[
            Act::Abandon(KEY),
            Act::Step(KEY),
            Act::Ask(KEY),
            Act::Collect,
            Act::Ask(KEY),
        ]),
    ),
    // the 65th flow of 64 slots is refused
    (
        64,
        Question::Acts(&[Act::Fill(65), Act::Abandon(KEY), Act::Expire(100)]),
    ),
    // a live connection is copied with its key, and a dead one isn't
    (
        2,
        Question::Acts(&[Act::Ask(KEY), Act::Copy, Act::Expire(100), Act::Copy]),
    ),
    (1, Question::Known),
    (1, Question::Resting),
    (3, Question::Shared),
    (32, Question::Crowds),
];

const ANSWERS: &str = "Some((ConnId { slot: 0, inc: 1 }, Done))
None
Some((ConnId { slot: 0, inc: 1 }, Done { reply: 100, place: 1 }))
None
0
1
None
Some((ConnId { slot: 0, inc: 2 }, Done))

Some((ConnId { slot: 0, inc: 1 }, Done))
None
None
Some((ConnId { slot: 0, inc: 2 }, Done))

64
None
64

Some((ConnId { slot: 0, inc: 1 }, Done))
Some(Kept { id: ConnId { slot: 0, inc: 1 }, forward: Some(Key([17, 1, 2, 3, 4])), port: None, backward: None, state: 100 })
None
1
None
None

(1, None, Some(NotLive), Some((ConnId { slot: 0, inc: 2 }, Done)))

Some((ConnId { slot: 0, inc: 2 }, Done))

(64, true)

(true, true, 32)
(true, true, 32)
(true, true, 32)
(true, true, 32)
(true, true, 32)
(true, true, 32)
(true, true, 32)
(true, true, 32)
(true, true, 32)
(true, true, 32)

";

// What a table without locks answers that has 16 nodes: these two keys part at their last
// half-byte, so a hold of the second wants 94.
const FEW_NODES: &[Act] = &[
    Act::Ask(KEY),
    Act::Ask(OTHER_KEY),
    Act::Step(KEY),
    Act::Step(OTHER_KEY),
    Act::Ask(KEY),
    Act::Expire(107),
    Act::Ask(OTHER_KEY),
];

const FEW_NODES_ANSWERS: &str = "Some((ConnId { slot: 0, inc: 1 }, Done))
Some((ConnId { slot: 1, inc: 1 }, NoNode))
Some((ConnId { slot: 0, inc: 1 }, Done { reply: 100, place: 1 }))
None
Some((ConnId { slot: 2, inc: 1 }, Taken(Found { id: ConnId { slot: 0, inc: 1 }, way: Forward })))
1
Some((ConnId { slot: 3, inc: 1 }, Done))
";

// What a new table answers.
fn answer<R: Threads + Wait + Sync, C: Connections<Sum>>(
    rt: &R,
    alloc: Global,
    conns: &C,
    pass: C::Pass,
    question: Question,
    told: &mut String,
) -> Result<(), Fail>
    requires out { IsOut sum_law (C.fits conns.now) C.view pass }
    requires sole { (C.view pass).places ≡ all_places }
{
    let mut pass = pass;
    match question {
        Question::Acts(acts) => answer_all(rt, conns, &mut pass, acts, told),
        Question::Known => put(told, &known_is_not_freed(rt, conns, &mut pass)),
        Question::Resting => put(told, &freed_beside_a_resting_pass(rt, conns, &mut pass)),
        Question::Shared => put(told, &shared(rt, conns, &mut pass)),
        Question::Crowds => tell_crowds(rt, alloc, conns, pass, told),
    }
}

fn new_table_answers<R: Threads + Wait + Sync, C: NewTable<Sum>>(
    rt: &R,
    alloc: Global,
    slots: u32,
    question: Question,
    told: &mut String,
) -> Result<(), Fail> {
    if !(1..=65_536).contains(&slots) {
        return Err("no table has so many slots".into());
    }
    let (conns, pass) = C::new_table(alloc, slots)?;
    answer(rt, alloc, &conns, pass, question, told)
}

// What new tables of this kind answer.
fn answers<R: Threads + Wait + Sync, C: NewTable<Sum>>(
    rt: &R,
    alloc: Global,
) -> Result<String, Fail> {
    let mut told = String::new(alloc);
    for (slots, question) in &CASES {
        new_table_answers::<R, C>(rt, alloc, *slots, *question, &mut told)?;
        told.push('\n')?;
    }
    Ok(told)
}

fn answers_of_few_nodes<R: Threads + Wait + Sync>(rt: &R, alloc: Global) -> Result<String, Fail> {
    let mut told = String::new(alloc);
    let (conns, pass) = Conns::<Sum, OneHash>::new(alloc, 65, 16)?;
    answer(
        rt,
        alloc,
        &conns,
        pass,
        Question::Acts(FEW_NODES),
        &mut told,
    )?;
    Ok(told)
}

#[test]
fn tables_answer_each_question(rt: HostRuntime) -> Result<(), Fail> {
    let alloc = rt.alloc();
    let wanted_and_told = [
        (ANSWERS, answers::<_, OneTurn<Sum>>(&rt, alloc)?),
        (ANSWERS, answers::<_, Conns<Sum, Fnv>>(&rt, alloc)?),
        (ANSWERS, answers::<_, Conns<Sum, OneHash>>(&rt, alloc)?),
        (FEW_NODES_ANSWERS, answers_of_few_nodes(&rt, alloc)?),
    ];
    for (wanted, told) in &wanted_and_told {
        same(&rt, told.as_str(), wanted);
    }
    Ok(())
}
