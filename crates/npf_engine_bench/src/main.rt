// Counts how long a packet takes through the engine, on one thread over a table under one turn, and how long a translation takes. The
// first word says which: `engine` with a configuration without tables, an interface and that interface's captures as in|out:FILE,
// `rewrite` with a number of packets. With no words one packet is handled and a thousand are translated, and no times are told. bench/engine
// and bench/rewrite run it beside programs in C.
#![tactic(auto)]

mod configuration;
mod rewriting;
mod traffic;
mod work;

use anyhow::{Error, anyhow};
use configuration::config_of;
use npf_outside::{Files, FolderFiles};
use npf_ruleset::Config;
use npf_types::limits::MAX_TEXT_BYTES;
use rewriting::time_rewriting;
use std::env;
use std::sync::Wait;
use traffic::{Crossing, captured, example};
use work::handled;

// The configuration of the run without words.
const CONF: &[u8] = b"group default {\n  pass stateful all\n}\n";

fn main(rt: HostRuntime) -> Result<(), Error> {
    let words = words(&rt)?;
    let number = match words.get(1) {
        Some(word) => word.as_str().parse::<u64>().unwrap_or(0),
        None => 0,
    };
    match words.first() {
        Some(word) if word.as_str() == "engine" => time_captures(&rt, &rt, &words),
        Some(_) => time_rewriting(&rt, number),
        None => {
            handle_example(&rt, &rt)?;
            time_rewriting(&rt, 0)
        }
    }
}

// The words behind the program's name.
fn words(rt: &HostRuntime) -> Result<Vec<String>, Error> {
    let mut given = env::args(rt)?;
    let _program = given.next();
    let mut words = Vec::new(rt.alloc());
    for word in given {
        words.push(word)?;
    }
    Ok(words)
}

// The host has the clock, the files and the output, and the handle waits.
fn handle_example<R: Wait>(host: &HostRuntime, rt: &R) -> Result<(), Error> {
    let config = config_of(host, CONF, "cap0")?;
    let counts = handled(host, rt, config, example(host.alloc())?)?;
    println!(host; "{} packets pass, {} don't", counts.pass, counts.other)?;
    Ok(())
}

fn time_captures<R: Wait>(host: &HostRuntime, rt: &R, words: &[String]) -> Result<(), Error> {
    let (Some(conf), Some(name), Some(captures)) = (words.get(1), words.get(2), words.get(3..))
    else {
        return Err(anyhow!("no configuration, interface and captures"));
    };
    let text = read_file(host, conf.as_str(), MAX_TEXT_BYTES)?;
    let config = config_of(host, &text, name.as_str())?;
    let crossings = captured(host, captures)?;
    time_crossings(host, rt, config, crossings)
}

fn time_crossings<R: Wait>(
    host: &HostRuntime,
    rt: &R,
    config: Config,
    crossings: Vec<Crossing>,
) -> Result<(), Error> {
    let counts = handled(host, rt, config, crossings)?;
    let packets = u128::from(counts.pass.saturating_add(counts.other)).max(1);
    println!(host; "{} packets pass, {} don't", counts.pass, counts.other)?;
    println!(host; "engine: {} ns a packet", counts.took / packets)?;
    Ok(())
}

/// The whole file, of at most `most` bytes.
pub fn read_file(rt: &HostRuntime, name: &str, most: usize) -> Result<Vec<u8>, Error> {
    match FolderFiles::new(rt).read(rt.alloc(), name, most as u64) {
        Ok(bytes) => Ok(bytes),
        Err(_) => Err(anyhow!("{name}: not read, or too long")),
    }
}
