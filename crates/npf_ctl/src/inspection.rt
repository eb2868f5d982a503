// The commands that only look at a configuration.
ghost use Rattle.std.specs.Prelude.{◌≡◌, ℕ, List, IfOk};
ghost use Rattle.npf_outside.specs.Files.{SameFiles};
ghost use Rattle.npf_connections.specs.Pass.{Pass};
ghost use Rattle.npf_engine.specs.Histories.{FlowEntry};
ghost use Rattle.npf_ctl_words.specs.CommandLine.{SaysCommand};
ghost use Rattle.npf_ctl.specs.Ends.{EndsIn};
ghost use Rattle.npf_ctl.specs.Inspection.{IsLookText, looking_command};
ghost use Rattle.npf_ctl.specs.Run.{moment};

use crate::programs::{count_text, programs_text};
use npf_ctl_input::load_alone;
use npf_ctl_messages::CommandFault;
use npf_ctl_output::put_text;
use npf_ctl_words::Load;
use npf_outside::{Files, Sink};
use npf_ruleset::Config;
use npf_show::show;
use npf_types::NoMemory;
use std::alloc::Global;

/// What is put of a configuration.
#[derive(Clone, Copy, Debug, PartialEq, Eq)]
pub(crate) enum ConfigText {
    /// How many rules it has.
    Count,
    /// Its canonical text.
    Model,
    /// The program of each rule.
    Programs,
}

/// Loads a configuration, and puts what the look says of it, in one call.
pub(crate) fn look_at<F: Files, O: Sink>(
    alloc: Global,
    look: ConfigText,
    load: Load<'_>,
    files: &mut F,
    out: &mut O,
) -> Result<(), CommandFault>
    ensures ends { (texts : List (List ℕ)) (pass : Pass FlowEntry) → SaysCommand texts (looking_command look load.entry) → EndsIn texts
        (moment (F.moment files.old) (O.moment out.old) pass) (moment (F.moment files.new) (O.moment out.new) pass) result }
    ensures files { SameFiles (F.moment files.old).contents (F.moment files.new).contents }
{
    let config = load_alone(alloc, load.ifaces, load.conf, files)?;
    let text = look_text(alloc, look, &config)?;
    put_text(text.as_slice(), out)
}

fn look_text(alloc: Global, look: ConfigText, config: &Config) -> Result<Vec<u8>, NoMemory>
    ensures { IfOk result (λ text. IsLookText look config.now.model text.items) }
{
    match look {
        ConfigText::Count => count_text(alloc, config),
        ConfigText::Model => show(alloc, config.model()),
        ConfigText::Programs => programs_text(alloc, config),
    }
}
