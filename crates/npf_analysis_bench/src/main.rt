// How long the analysis takes over a configuration and another one that came of it: the cut of all dimensions with the boxes of all rules,
// whether some packet reaches each rule of the first, and which pairs of their rules decide on one packet with different effects. The words
// are their files, and maybe the file that the boxes are put into, for a program in C that asks the same; bench/analysis runs both. With no words
// the work is done once over small ones, and no times are told.
#![tactic(auto)]

mod boxes_file;
mod common;
mod loaded;
mod pairs;
mod question;
mod reach;
mod rule_list;
mod rules;
mod spent;

use anyhow::{Error, anyhow};
use boxes_file::BoxesFile;
use loaded::{load_file, load_text, number};
use npf_outside::{Files, FolderFiles};
use npf_products::{Space, kinds};
use npf_ruleset::Config;
use npf_steps::Steps;
use pairs::Pairs;
use reach::Reach;
use rules::Rules;
use spent::Spent;
use std::env;
use std::time::Instant;

// The most steps that a question may take.
const MOST: u64 = 1_000_000_000;

const OLD: &str =
    "group default {\n  pass from 10.0.0.0/8\n  block all\n  pass final proto tcp to any port 22\n}\n";

const NEW: &str =
    "group default {\n  block all\n  pass from 10.0.0.0/9\n  pass final proto tcp to any port 22\n}\n";

fn main(rt: HostRuntime) -> Result<(), Error> {
    let alloc = rt.alloc();
    let mut words = Vec::new(alloc);
    for word in env::args(&rt)? {
        words.push(word)?;
    }
    match words.as_slice() {
        [_, old, new] => ask_files(&rt, old.as_str(), new.as_str(), None),
        [_, old, new, boxes] => ask_files(&rt, old.as_str(), new.as_str(), Some(boxes.as_str())),
        _ => {
            let old = load_text(alloc, OLD.as_bytes())?;
            let new = load_text(alloc, NEW.as_bytes())?;
            let mut boxes = BoxesFile::new(alloc, kinds().len())?;
            measured(&rt, &old, &new, Some(&mut boxes))?;
            Ok(())
        }
    }
}

// Asks all of the configurations of two files, tells the times, and puts the boxes into a file where one is named.
fn ask_files(rt: &HostRuntime, old: &str, new: &str, boxes: Option<&str>) -> Result<(), Error> {
    let alloc = rt.alloc();
    let mut files = FolderFiles::new(rt);
    let mut old = load_file(alloc, &mut files, old)?;
    let mut new = load_file(alloc, &mut files, new)?;
    number(alloc, &mut old, &mut new)?;
    let Some(name) = boxes else {
        println!(rt; "{}", measured(rt, &old, &new, None)?)?;
        return Ok(());
    };
    let mut boxes = BoxesFile::new(alloc, kinds().len())?;
    println!(rt; "{}", measured(rt, &old, &new, Some(&mut boxes))?)?;
    files
        .write(name, boxes.bytes())
        .map_err(|_| anyhow!("the boxes can't be written"))
}

// Asks all of both configurations, tells what was found, and gives the times; and adds the boxes to a file if there is one.
fn measured(
    rt: &HostRuntime,
    old: &Config,
    new: &Config,
    mut file: Option<&mut BoxesFile>,
) -> Result<Spent, Error> {
    let alloc = rt.alloc();
    let rules = Rules::new(alloc, old, new)?;
    let (of_old, of_new) = rules.lists();
    let mut steps = Steps::new(MOST);
    let mut reach = Reach::new(alloc, of_old.count)?;
    let mut pairs = Pairs::new(alloc);
    let mut spent = Spent::default();
    for kind in &kinds() {
        let start = Instant::now(rt)?;
        let space = Space::new(alloc, *kind, rules.tables(), rules.products(), &mut steps)?;
        let boxes = space.boxes(alloc, &mut steps)?;
        let cut = Instant::now(rt)?;
        reach.ask(alloc, &boxes, &of_old, &mut steps)?;
        let reached = Instant::now(rt)?;
        pairs.ask(alloc, &boxes, &of_old, &of_new, &mut steps)?;
        spent.add(&[start, cut, reached, Instant::now(rt)?]);
        if let Some(file) = &mut file {
            file.add(&boxes, &of_old, &of_new)?;
        }
    }
    spent.steps = steps.taken();
    println!(rt; "reached {}, pairs {}", reach.count(), pairs.count())?;
    Ok(spent)
}
