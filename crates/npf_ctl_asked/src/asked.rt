// A class of packets beside a configuration.
ghost use Rattle.std.specs.Prelude.{◌≡◌, IfErr, IfOk, option_map};
ghost use Rattle.npf_interfaces.specs.Names.{model_names, on_names, with_names};
ghost use Rattle.npf_model.specs.Numbering.{numbered_on, numbered_rule};
ghost use Rattle.npf_ruleset.specs.Configuration.{configuration};
ghost use Rattle.npf_ctl_asked.specs.Asked.{IsAskedAbout, RefusesAsked, own_names};

use npf_ctl_class::class_of;
use npf_ctl_messages::{CommandFault, Quantity};
use npf_interfaces::{model_names, with_names};
use npf_model::{Ifaces, Model, OnIf, Rule, number_of_name};
use npf_ruleset::Config;
use npf_types::limits::MAX_INTERFACES;
use npf_types::{Name, NoMemory};
use std::alloc::Global;

/// What a question is about.
#[derive(Drop)]
pub struct AskedClass {
    /// The interfaces that packets may pass on; all others are alike.
    pub ifaces: Ifaces,
    /// The configuration, by the numbers of these interfaces.
    pub config: Config,
    /// The rule that describes the packets of the class, by the same numbers.
    pub class: Rule,
}

/// The class of this text beside a configuration and the interfaces that were given with it, with the interface that the question names, if it does.
///
/// # Errors
/// `Long` where the text has more than `MAX_CLASS_BYTES` bytes, the first fault of the class (10 to 49) at its place in the text, with the file `class`,
/// and `Many` where there are more than `MAX_INTERFACES` interfaces; or want of memory.
pub fn read_asked(
    alloc: Global,
    ifaces: Ifaces,
    mut config: Config,
    own: Option<Name>,
    text: &[u8],
) -> Result<AskedClass, CommandFault>
    ensures ok { IfOk result (λ asked. IsAskedAbout ifaces.list (configuration config) own text.now asked.ifaces.list (configuration asked.config) asked.class) }
    ensures err { IfErr result (RefusesAsked ifaces.list (configuration config) own text.now) }
{
    let ifaces = known_ifaces(alloc, ifaces, config.model(), own)?;
    let class = class_of(alloc, text, config.model(), &ifaces)?;
    let ifaces = with_on(alloc, ifaces, class.on)?;
    let count = ifaces.list.as_slice().len();
    if count > MAX_INTERFACES {
        return Err(CommandFault::Many {
            what: Quantity::Interfaces,
            count: count as u64,
        });
    }
    config.number(&ifaces);
    let class = numbered(class, &ifaces);
    Ok(AskedClass {
        ifaces,
        config,
        class,
    })
}

/// The interfaces that are given, those of the model, and the question's own.
fn known_ifaces(
    alloc: Global,
    ifaces: Ifaces,
    model: &Model,
    own: Option<Name>,
) -> Result<Ifaces, NoMemory>
    ensures { IfOk result (λ all. all.list ≡ with_names (with_names ifaces.list (model_names model.now)) (own_names own)) }
{
    let names = model_names(alloc, model)?;
    let known = with_names(alloc, ifaces, names.as_slice())?;
    match own {
        None => Ok(known),
        Some(name) => with_names(alloc, known, &[name]),
    }
}

/// These interfaces, and behind them that of a rule, if it is bound to one.
fn with_on(alloc: Global, ifaces: Ifaces, on: Option<OnIf>) -> Result<Ifaces, NoMemory>
    ensures { IfOk result (λ all. all.list ≡ with_names ifaces.list (on_names on)) }
{
    match on {
        None => Ok(ifaces),
        Some(on) => with_names(alloc, ifaces, &[on.name]),
    }
}

/// The rule by the numbers of these interfaces.
fn numbered(rule: Rule, ifaces: &Ifaces) -> Rule
    ensures { result ≡ numbered_rule ifaces.now.list rule }
{
    let on = numbered_on(rule.on, ifaces);
    Rule { on, ..rule }
}

fn numbered_on(on: Option<OnIf>, ifaces: &Ifaces) -> Option<OnIf>
    ensures { result ≡ option_map (numbered_on ifaces.now.list) on }
{
    match on {
        None => None,
        Some(on) => Some(OnIf {
            id: number_of_name(ifaces.list.as_slice(), &on.name),
            ..on
        }),
    }
}
