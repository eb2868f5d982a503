// What is said of a class.
ghost use Rattle.std.specs.Prelude.{◌≡◌, ◌≤◌, codes, IfOk, IsErrOf};
ghost use Rattle.npf_steps.specs.Spent.{IsSpent};
ghost use Rattle.npf_ruleset.specs.Configuration.{configuration};
ghost use Rattle.npf_ctl_explain.specs.Answer.{IsExplainText, packet_text};

use crate::class::{Passage, packet_of_class};
use crate::text::write_told;
use npf_explain::explain;
use npf_model::{Iface, Ifaces, Rule};
use npf_ruleset::Config;
use npf_steps::{Steps, Stopped};
use npf_text::write_text;
use npf_types::{Facts, NoMemory};
use npf_witness::write_witness;
use std::alloc::Global;

/// What is said, and whether of a packet: else there is none.
#[derive(Debug, Drop)]
pub struct Explained {
    pub text: Vec<u8>,
    pub found: bool,
}

/// What the configuration says of one of the packets that a class's rule describes where they pass, or `empty` where there is none: so on an interface that
/// isn't one of the run's. The interfaces are those by which the configuration and the class are numbered.
///
/// # Errors
/// `Stopped::Spent` where the search wants more steps than may be taken, and want of memory.
pub fn explain_text(
    alloc: Global,
    config: &Config,
    ifaces: &Ifaces,
    class: &Rule,
    passage: Passage,
    steps: &mut Steps,
) -> Result<Explained, Stopped>
    ensures text { IfOk result (λ said. IsExplainText ifaces.now.list (configuration config.now) class.now passage.on.id passage.dir said.found said.text.items) }
    ensures spent { IsErrOf result Stopped.Spent → IsSpent steps.new }
    ensures most { steps.new.most ≡ steps.old.most }
    ensures rises { steps.old.taken ≤ steps.new.taken }
{
    match packet_of_class(alloc, config, class, passage, steps)? {
        Some(facts) => Ok(Explained {
            text: packet_text(alloc, config, ifaces.list.as_slice(), &facts, passage)?,
            found: true,
        }),
        None => Ok(Explained {
            text: empty_text(alloc)?,
            found: false,
        }),
    }
}

/// The packet where it passes, and what the configuration says of it.
fn packet_text(
    alloc: Global,
    config: &Config,
    ifaces: &[Iface],
    facts: &Facts,
    passage: Passage,
) -> Result<Vec<u8>, NoMemory>
    ensures { IfOk result (λ text. text.items ≡ packet_text ifaces.now (configuration config.now) facts.now passage.on.id passage.dir) }
{
    let told = explain(alloc, config, facts, passage.on.id, passage.dir)?;
    let mut text = Vec::new(alloc);
    write_witness(alloc, &mut text, ifaces, facts, passage.on.id, passage.dir)?;
    write_text(&mut text, "\n")?;
    write_told(alloc, &mut text, config, &told)?;
    Ok(text)
}

fn empty_text(alloc: Global) -> Result<Vec<u8>, NoMemory>
    ensures { IfOk result (λ text. text.items ≡ codes "empty\n") }
{
    Ok(Vec::from_slice(alloc, b"empty\n")?)
}
