// What is expected, beside a configuration and the interfaces that packets may pass on.
ghost use Rattle.std.specs.Prelude.{◌≡◌, ◌≤◌, ◌++◌, IfErr, IfOk, OnOk, length, map, option_map};
ghost use Rattle.std.specs.List.{flat_map};
ghost use Rattle.npf_interfaces.specs.Names.{on_names};
ghost use Rattle.npf_model.specs.Numbering.{numbered_on, numbered_rule};
ghost use Rattle.npf_ruleset.specs.Configuration.{configuration};
ghost use Rattle.npf_ctl_check.specs.AskedAbout.{AreAskedAbout, RefusesExpectations, class_names, known_ifaces, numbered_expectation};

use crate::expectation::Expectation;
use crate::lines::{ExpectationFile, read_lines};
use npf_ctl_messages::{CommandFault, Quantity};
use npf_interfaces::{model_names, with_names};
use npf_model::{Ifaces, Model, OnIf, Rule, number_of_name};
use npf_ruleset::Config;
use npf_types::limits::{MAX_INTERFACES, MAX_TEXT_BYTES};
use npf_types::{Name, NoMemory};
use std::alloc::Global;

/// What a file expects of a configuration.
#[derive(Drop)]
pub struct AskedExpectations {
    /// The interfaces that packets may pass on; all others are alike.
    pub ifaces: Ifaces,
    /// The configuration, by the numbers of these interfaces.
    pub config: Config,
    /// What is expected, in the order of the lines; each class by the same numbers.
    pub expectations: Vec<Expectation>,
}

/// What the file of this name and text, of at most `MAX_TEXT_BYTES` bytes, expects of a configuration, with the interfaces that were given.
///
/// # Errors
/// `Line` for the first line that expects nothing (70) or whose class has a fault (10 to 49), and `Many` where there are more than `MAX_INTERFACES`
/// interfaces; or want of memory.
pub fn read_asked_expectations(
    alloc: Global,
    file: &str,
    text: &[u8],
    ifaces: Ifaces,
    mut config: Config,
) -> Result<AskedExpectations, CommandFault>
    requires { length text.now ≤ MAX_TEXT_BYTES }
    ensures ok { IfOk result (λ asked. AreAskedAbout text.now ifaces.list (configuration config) asked.ifaces.list (configuration asked.config) asked.expectations.items) }
    ensures err { IfErr result (RefusesExpectations file.now text.now ifaces.list (configuration config)) }
{
    let known = known_ifaces(alloc, ifaces, config.model())?;
    let file = ExpectationFile { name: file, text };
    let read = read_lines(alloc, file, config.model(), &known)?;
    let names = class_names(alloc, read.as_slice())?;
    let ifaces = with_names(alloc, known, names.as_slice())?;
    let count = ifaces.list.as_slice().len();
    if count > MAX_INTERFACES {
        return Err(CommandFault::Many {
            what: Quantity::Interfaces,
            count: count as u64,
        });
    }
    config.number(&ifaces);
    let expectations = numbered_all(alloc, read, &ifaces)?;
    Ok(AskedExpectations {
        ifaces,
        config,
        expectations,
    })
}

/// The interfaces that are given, and those of the model.
fn known_ifaces(alloc: Global, ifaces: Ifaces, model: &Model) -> Result<Ifaces, NoMemory>
    ensures { IfOk result (λ known. known.list ≡ known_ifaces ifaces.list model.now) }
{
    let names = model_names(alloc, model)?;
    with_names(alloc, ifaces, names.as_slice())
}

/// The interfaces that classes are bound to.
fn class_names(alloc: Global, read: &[Expectation]) -> Result<Vec<Name>, NoMemory>
    ensures { IfOk result (λ names. names.items ≡ flat_map class_names read.now) }
{
    let mut names = Vec::new(alloc);
    for expectation in read {
        push_on(&mut names, &expectation.class.on)?;
    }
    Ok(names)
}

fn push_on(names: &mut Vec<Name>, on: &Option<OnIf>) -> Result<(), NoMemory>
    ensures { OnOk result (names.new.items ≡ names.old.items ++ on_names on.now) }
{
    if let Some(on) = on {
        names.push(on.name)?;
    }
    Ok(())
}

/// What is expected, by the numbers of these interfaces.
fn numbered_all(
    alloc: Global,
    read: Vec<Expectation>,
    ifaces: &Ifaces,
) -> Result<Vec<Expectation>, NoMemory>
    ensures { IfOk result (λ all. all.items ≡ map (numbered_expectation ifaces.now.list) read.items) }
{
    let mut all = Vec::new(alloc);
    for expectation in read {
        all.push(numbered_expectation(expectation, ifaces))?;
    }
    Ok(all)
}

fn numbered_expectation(expectation: Expectation, ifaces: &Ifaces) -> Expectation
    ensures { result ≡ numbered_expectation ifaces.now.list expectation }
{
    let class = numbered_rule(expectation.class, ifaces);
    Expectation {
        class,
        line: expectation.line,
        amount: expectation.amount,
        wanted: expectation.wanted,
    }
}

fn numbered_rule(rule: Rule, ifaces: &Ifaces) -> Rule
    ensures { result ≡ numbered_rule ifaces.now.list rule }
{
    let on = numbered_on(rule.on, ifaces);
    Rule { on, ..rule }
}

fn numbered_on(on: Option<OnIf>, ifaces: &Ifaces) -> Option<OnIf>
    ensures { result ≡ option_map (numbered_on ifaces.now.list) on }
{
    match on {
        None => None,
        Some(on) => Some(OnIf {
            id: number_of_name(ifaces.list.as_slice(), &on.name),
            ..on
        }),
    }
}
