// The connections of tables saved and loaded, row by row: packets open connections or are taken by
// them, connections expire, a table's text is saved, and a text is loaded into a new table.
// Standard input has a row a line, and its head tells which there are; each row is printed with its
// answer, which each kind of table has to give. What stdout wants comes from docs/FORMATS.md and
// from counting by hand, not from this program.
#![tactic(auto)]

mod attempts;
mod rows;
mod tables;

use anyhow::{Context, Result, bail};
use npf_conndb::{Conns, Fnv};
use npf_connections_fixtures::NewTable;
use npf_flow::FlowLaw;
use npf_oneturn::OneTurn;
use rows::Texts;
use std::alloc::Global;
use std::io::{BufRead, BufReader};
use std::sync::Wait;
use tables::answer_table;

fn main(rt: HostRuntime) -> Result<()> {
    let alloc = rt.alloc();
    let mut tables = Vec::new(alloc);
    for line in BufReader::new(alloc, rt.reader())?.lines(alloc) {
        let line = line?;
        if tables.is_empty() || line.starts_with("load ") {
            tables.push(Vec::new(alloc))?;
        }
        tables.last_mut().context("no table")?.push(line)?;
    }
    let told = answers::<Conns<FlowLaw, Fnv>>(&rt, alloc, &tables)?;
    let under_one_turn = answers::<OneTurn<FlowLaw>>(&rt, alloc, &tables)?;
    if told != under_one_turn {
        bail!("under one turn it is otherwise: {under_one_turn}");
    }
    print!(rt; "{told}")?;
    Ok(())
}

// What tables of this kind answer.
fn answers<C: NewTable<FlowLaw>>(
    rt: &impl Wait,
    alloc: Global,
    tables: &[Vec<String>],
) -> Result<String> {
    let mut texts = Texts {
        saved: Vec::new(alloc),
        told: String::new(alloc),
    };
    for rows in tables {
        answer_table::<C>(rt, alloc, rows, &mut texts)?;
    }
    Ok(texts.told)
}
