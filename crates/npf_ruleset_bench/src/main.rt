// Counts how long the calls of tables, programs and walks take. The first word says which: `lpm` look-ups in tables of prefixes,
// `changes` those of such a table, `bpf` runs of compiled rules, `rules` walks of packets over rules. The second is how often. With no
// words the work of each is done once, and no times are told. bench/lpm, bench/bpf and bench/rules run it beside programs in C.
#![tactic(auto)]

mod asked;
mod changes;
mod draws;
mod loaded;
mod look_ups;
mod packet;
mod programs;
mod text;
mod walks;

use anyhow::Error;
use asked::{Measure, asked};
use changes::time_changes;
use look_ups::time_look_ups;
use programs::time_programs;
use walks::time_walks;

fn main(rt: HostRuntime) -> Result<(), Error> {
    let (measure, rounds) = asked(&rt)?;
    if measure.has(Measure::LookUps) {
        time_look_ups(&rt, rounds)?;
    }
    if measure.has(Measure::Changes) {
        time_changes(&rt, rounds)?;
    }
    if measure.has(Measure::Programs) {
        time_programs(&rt, rounds)?;
    }
    if measure.has(Measure::Walks) {
        time_walks(&rt, rounds)?;
    }
    Ok(())
}
