// Which row a line has.
use crate::preparing::{prepare, prepare_times};
use crate::runs::run;
use crate::setting::Setting;
use crate::variants::{Change, run_variants};
use anyhow::Result;
use std::sync::Wait;
use std::thread::Threads;

/// Does what the row of a line says, if it has one, and prints it if it asks something.
pub fn answer_line<R: Print + AllocGlobal + Threads + Wait + Sync>(
    rt: &R,
    setting: &mut Setting,
    line: &str,
) -> Result<()> {
    if line.is_empty() || line.starts_with('#') {
        return Ok(());
    }
    let (word, text) = line.split_once(' ').unwrap_or((line, ""));
    match word {
        "npfctl" => {
            print!(rt; "{line}")?;
            run(rt, setting, text)
        }
        "cut" => {
            println!(rt; "{line}")?;
            run_variants(rt, setting, Change::Cut, text)
        }
        "spoil" => {
            println!(rt; "{line}")?;
            run_variants(rt, setting, Change::Spoil, text)
        }
        "case" => Ok(println!(rt; "{line}")?),
        "subject" => {
            *setting = Setting::new(rt.alloc());
            Ok(println!(rt; "\n{line}")?)
        }
        "*" => prepare_times(setting, text),
        _ => prepare(setting, word, text),
    }
}
