// The language of npf.conf(5) row by row: what no clause says of it, that its definitions mean what the manual and the standards say.
//
// Standard input has rows, as row.rt says, grouped by subject, and each is printed with its answer. The program serves the crates from a
// text's bytes to its canonical text, which are npf_lexer, npf_parser, npf_expand, npf_check and npf_show, and the tables' one, npf_table.
// What stdout wants comes from npf.conf(5), npfctl(8), RFC 791, 4291 and 4632 and counting by hand, not from this program.
#![tactic(auto)]

mod again;
mod answer;
mod fault;
mod given;
mod number;
mod random;
mod reading;
mod row;
mod table;
mod token;

use anyhow::Result;
use fault::Told;
use given::Given;
use row::{Row, read_line};
use std::io::{BufRead, BufReader};

fn main(rt: HostRuntime) -> Result<()> {
    let mut given = Given::new(rt.alloc());
    for row in read_rows(&rt)? {
        print!(rt; "{} => ", row.line)?;
        match given.answer(rt.alloc(), &row) {
            Ok(answer) => println!(rt; "{answer}")?,
            Err(refused) => println!(rt; "{}", Told(refused))?,
        }
    }
    Ok(())
}

fn read_rows(rt: &(impl Input + AllocGlobal)) -> Result<Vec<Row>> {
    let mut rows = Vec::new(rt.alloc());
    for line in BufReader::new(rt.alloc(), rt.reader())?.lines(rt.alloc()) {
        read_line(rt.alloc(), &mut rows, line?)?;
    }
    Ok(rows)
}
