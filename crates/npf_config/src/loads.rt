// The work of loading. No file is read before the whole text is checked, and none behind the first that is refused; no clause says so, as
// the counts alone bound what else a call may read.
ghost use Rattle.std.specs.Prelude.{◌≤◌, length, IfOk, IfErr, OnOk};
ghost use Rattle.npf_outside.specs.Files.{SameReadFaults};
ghost use Rattle.npf_ruleset.specs.Configuration.{configuration};
ghost use Rattle.npf_config.specs.FirstConfiguration.{IsFirstConfiguration, IsFirstConfigurationTo};
ghost use Rattle.npf_config.specs.Loaded.{HasNextIds, IsLoaded};
ghost use Rattle.npf_config.specs.Reading.{OnlyReads};
ghost use Rattle.npf_config.specs.Refusal.{RefusesLoad};

use crate::fault::LoadFault;
use crate::rules::compile_rules;
use crate::tables::read_tables;
use crate::text::read_text;
use npf_model::Ifaces;
use npf_outside::Files;
use npf_ruleset::Config;
use npf_types::Span;
use npf_types::limits::{MAX_PROCEDURES, MAX_TEXT_BYTES};
use std::alloc::Global;

/// Loads a configuration of npf.conf(5), of at most `MAX_TEXT_BYTES` bytes, for a run with these interfaces. The first fault that
/// is met is answered:
///
/// - those of the tokens, the grammar, the meaning and the checks (10 to 49), one stage after another
/// - then, table by table in the order of the text, at the name of its file: a file that isn't read or is longer than a text may
///   be, or its first bad line (35); and at the table the entries of all tables so far, past `MAX_TABLE_ENTRIES` (49)
/// - then the first rule, in the order of inspection, whose weight passes `MAX_RULE_WEIGHT` (49); and at the text's end the
///   instructions of all rules, past `MAX_INSTRUCTIONS` (49)
pub fn load<F: Files>(
    alloc: Global,
    text: &[u8],
    ifaces: &Ifaces,
    files: &mut F,
) -> Result<Config, LoadFault>
    requires { length text.now ≤ MAX_TEXT_BYTES }
    ensures first { IfOk result (λ config. IsFirstConfiguration ifaces.now.list (F.moment files.old).contents text.now (configuration config)) }
    ensures loaded { IfOk result IsLoaded }
    ensures ids { IfOk result (λ config. HasNextIds 1 config.model) }
    ensures refuses { IfErr result (RefusesLoad ifaces.now.list text.now (F.moment files.old) (F.moment files.new)) }
    ensures reads { OnlyReads (F.moment files.old) (F.moment files.new) }
    ensures faultless { OnOk result (SameReadFaults (F.moment files.old) (F.moment files.new)) }
{
    let (config, _) = load_placed(alloc, text, ifaces, files)?;
    Ok(config)
}

/// The same, with the place where the text ends.
pub fn load_placed<F: Files>(
    alloc: Global,
    text: &[u8],
    ifaces: &Ifaces,
    files: &mut F,
) -> Result<(Config, Span), LoadFault>
    requires { length text.now ≤ MAX_TEXT_BYTES }
    ensures first { IfOk result (λ read. IsFirstConfigurationTo ifaces.now.list (F.moment files.old).contents text.now (configuration read.0) read.1) }
    ensures loaded { IfOk result (λ read. IsLoaded read.0) }
    ensures ids { IfOk result (λ read. HasNextIds 1 read.0.model) }
    ensures procedures { IfOk result (λ read. length read.0.model.procedures ≤ MAX_PROCEDURES) }
    ensures refuses { IfErr result (RefusesLoad ifaces.now.list text.now (F.moment files.old) (F.moment files.new)) }
    ensures reads { OnlyReads (F.moment files.old) (F.moment files.new) }
    ensures faultless { OnOk result (SameReadFaults (F.moment files.old) (F.moment files.new)) }
{
    let (tree, model) = read_text(alloc, text, ifaces)?;
    let tables = read_tables(alloc, model.tables.as_slice(), files)?;
    let config = compile_rules(alloc, &tree, model, tables)?;
    Ok((config, tree.end))
}
