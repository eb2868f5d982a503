// The procedures of a configuration.
ghost use Rattle.std.specs.Prelude.{◌≡◌, IfOk};
ghost use Rattle.npf_expand.specs.Procedure.{log_name, procedure_of, with_call, with_calls, with_option, with_options};

use crate::text::text_of;
use npf_expand_values::name_of;
use npf_model::Procedure;
use npf_syntax::{Call, LogName, Opt};
use npf_types::{Name, NoMemory};
use std::alloc::Global;

/// The procedure of this name with these calls; of those that stand there more than once the last counts.
pub(crate) fn procedure_of(
    alloc: Global,
    name: &[u8],
    calls: &[Call],
) -> Result<Procedure, NoMemory>
    ensures { IfOk result (λ procedure. procedure ≡ procedure_of name.now calls.now) }
{
    let mut procedure = Procedure {
        name: text_of(alloc, name)?,
        min_ttl: None,
        max_mss: None,
        no_df: false,
        log: None,
    };
    set_calls(&mut procedure, calls);
    Ok(procedure)
}

fn set_calls(procedure: &mut Procedure, calls: &[Call])
    ensures { procedure.new ≡ with_calls procedure.old calls.now }
{
    for call in calls {
        set_call(procedure, call);
    }
}

fn set_call(procedure: &mut Procedure, call: &Call)
    ensures { procedure.new ≡ with_call procedure.old call.now }
{
    match call {
        Call::Log { name, .. } => procedure.log = Some(log_name(name)),
        Call::Normalize { options, .. } => set_options(procedure, options.as_slice()),
        Call::Route { .. } => {}
    }
}

fn log_name(name: &LogName) -> Name
    ensures { result ≡ log_name name.now }
{
    match name {
        LogName::Word { word, .. } => name_of(word.text.as_slice()),
        LogName::Str { string, .. } => name_of(string.text.as_slice()),
    }
}

// Sets what the options say; of those that stand there more than once the last counts.
fn set_options(procedure: &mut Procedure, options: &[Opt])
    ensures { procedure.new ≡ with_options procedure.old options.now }
{
    for option in options {
        set_option(procedure, option);
    }
}

fn set_option(procedure: &mut Procedure, option: &Opt)
    ensures { procedure.new ≡ with_option procedure.old option.now }
{
    match option {
        Opt::MinTtl { number, .. } => procedure.min_ttl = Some(number.value.min(255) as u8),
        Opt::MaxMss { number, .. } => procedure.max_mss = Some(number.value.min(65535) as u16),
        Opt::NoDf { .. } => procedure.no_df = true,
        Opt::RandomId { .. } => {}
    }
}
