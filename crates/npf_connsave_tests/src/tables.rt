// Which table the rows are about: a new one, into which the first row may load the text.
ghost use Rattle.std.specs.Prelude.{◌≡◌, []};
ghost use Rattle.npf_connections.specs.Pass.{all_places};
ghost use Rattle.npf_connections.specs.Stay.{IsOut};
ghost use Rattle.npf_flow.specs.Flows.{flow_law};

use crate::rows::{Texts, answer_rows, names_of};
use anyhow::{Context, Result, bail};
use npf_connections::Connections;
use npf_connections_fixtures::NewTable;
use npf_connsave::load;
use npf_flow::FlowLaw;
use npf_types::limits::MAX_SAVED_BYTES;
use std::alloc::Global;
use std::fmt::Write;
use std::sync::Wait;

/// The slots of a table that nothing is loaded into.
const SLOTS: u32 = 8;

/// Tells the rows of one table of this kind.
pub fn answer_table<C: NewTable<FlowLaw>>(
    rt: &impl Wait,
    alloc: Global,
    rows: &[String],
    texts: &mut Texts,
) -> Result<()> {
    let (first, rest) = rows.split_first().context("no row")?;
    let Some(run) = first.strip_prefix("load ") else {
        let (conns, mut pass) = C::new_table(alloc, SLOTS)?;
        return answer_rows(rt, alloc, &conns, &mut pass, rows, texts);
    };
    let (slots, names) = run.split_once(' ').unwrap_or((run, ""));
    let slots = slots.parse::<u32>()?;
    if !(1..=65_536).contains(&slots) {
        bail!("no table has so many slots");
    }
    let (conns, mut pass) = C::new_table(alloc, slots)?;
    texts.told.push_str(first.as_str())?;
    tell_loaded(rt, alloc, &conns, &mut pass, names, texts)?;
    answer_rows(rt, alloc, &conns, &mut pass, rest, texts)
}

/// Loads the text into a new table, for a run of these interfaces, and tells what becomes of it.
fn tell_loaded<C: Connections<FlowLaw>>(
    rt: &impl Wait,
    alloc: Global,
    conns: &C,
    pass: &mut C::Pass,
    names: &str,
    texts: &mut Texts,
) -> Result<()>
    requires out { IsOut flow_law (C.fits conns.now) C.view pass.old }
    requires sole { (C.view pass.old).places ≡ all_places }
    requires new { (C.view pass.old).history ≡ [] }
    ensures out { IsOut flow_law (C.fits conns.now) C.view pass.new }
    ensures sole { (C.view pass.new).places ≡ all_places }
{
    if texts.saved.len() > MAX_SAVED_BYTES {
        bail!("the text is too long");
    }
    let names = names_of(alloc, names)?;
    match load(
        rt,
        alloc,
        conns,
        pass,
        names.as_slice(),
        texts.saved.as_slice(),
    ) {
        Ok(()) => write!(texts.told, " -> loaded\n")?,
        Err(fault) => write!(texts.told, " -> {fault}\n")?,
    }
    Ok(())
}
