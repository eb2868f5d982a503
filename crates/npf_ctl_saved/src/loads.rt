// The connections of a file, put into a new table.
ghost use Rattle.std.specs.Prelude.{◌≡◌, [], IfErr, IfOk, OnOk, Some, option_map};
ghost use Rattle.npf_connections.specs.Pass.{all_places};
ghost use Rattle.npf_connections.specs.Stay.{IsOut};
ghost use Rattle.npf_connsave.specs.Loads.{StaysSole};
ghost use Rattle.npf_config.specs.Reading.{OnlyReads};
ghost use Rattle.npf_ctl_input.specs.Around.{Around};
ghost use Rattle.npf_ctl_input.specs.Unless.{IfTold};
ghost use Rattle.npf_ctl_saved.specs.Loads.{BeginsLoaded, FailsLoad, LoadsConnections, told_saved};
ghost use Rattle.npf_flow.specs.Flows.{flow_law};
ghost use Rattle.npf_outside.specs.Files.{FilesMoment};

use npf_connections::Connections;
use npf_connsave::load;
use npf_ctl_input::{read_file, text_of};
use npf_ctl_messages::{CommandFault, SavedRefusal};
use npf_flow::FlowLaw;
use npf_outside::Files;
use npf_saved_file::SavedFault;
use npf_types::limits::MAX_SAVED_BYTES;
use npf_types::{Name, NoMemory};
use std::alloc::Global;
use std::sync::Wait;

/// Loads the connections of the file of this name, if there is one, into a new table, for a run of
/// these interfaces. The pass owns all reader places.
///
/// Refused as `read_file` refuses the file, and with `Saved` as `npf_connsave::load` refuses its
/// text; or for want of memory. The files are only read.
pub fn load_connections<R: Wait, F: Files, C: Connections<FlowLaw>>(
    rt: &R,
    alloc: Global,
    file: Option<&str>,
    names: &[Name],
    files: &mut F,
    conns: &C,
    pass: &mut C::Pass,
) -> Result<(), CommandFault>
    requires out { IsOut flow_law (C.fits conns.now) C.view pass.old }
    requires sole { (C.view pass.old).places ≡ all_places }
    requires new { (C.view pass.old).history ≡ [] }
    ensures begins { (before after : FilesMoment) → Around before (F.moment files.old) (F.moment files.new) after
        → OnOk result (BeginsLoaded before after (option_map (λ name. name.now) file.entry) names.now (C.view pass.old) (C.view pass.new)) }
    ensures fails { (before after : FilesMoment) → Around before (F.moment files.old) (F.moment files.new) after
        → IfErr result (IfTold (FailsLoad before after (option_map (λ name. name.now) file.entry) names.now (C.view pass.old) (C.view pass.new))) }
    ensures reads { OnlyReads (F.moment files.old) (F.moment files.new) }
    ensures out { IsOut flow_law (C.fits conns.now) C.view pass.new }
    ensures same { StaysSole (C.view pass.old) (C.view pass.new) }
{
    match file {
        None => Ok(()),
        Some(file) => load_file(rt, alloc, file, names, files, conns, pass),
    }
}

fn load_file<R: Wait, F: Files, C: Connections<FlowLaw>>(
    rt: &R,
    alloc: Global,
    file: &str,
    names: &[Name],
    files: &mut F,
    conns: &C,
    pass: &mut C::Pass,
) -> Result<(), CommandFault>
    requires out { IsOut flow_law (C.fits conns.now) C.view pass.old }
    requires sole { (C.view pass.old).places ≡ all_places }
    requires new { (C.view pass.old).history ≡ [] }
    ensures begins { (before after : FilesMoment) → Around before (F.moment files.old) (F.moment files.new) after
        → OnOk result (LoadsConnections before after file.now names.now (C.view pass.old) (C.view pass.new)) }
    ensures fails { (before after : FilesMoment) → Around before (F.moment files.old) (F.moment files.new) after
        → IfErr result (IfTold (FailsLoad before after (Some file.now) names.now (C.view pass.old) (C.view pass.new))) }
    ensures reads { OnlyReads (F.moment files.old) (F.moment files.new) }
    ensures out { IsOut flow_law (C.fits conns.now) C.view pass.new }
    ensures same { StaysSole (C.view pass.old) (C.view pass.new) }
{
    let text = read_file(alloc, file, MAX_SAVED_BYTES as u64, files)?;
    match load(rt, alloc, conns, pass, names, text.as_slice()) {
        Ok(()) => Ok(()),
        Err(fault) => Err(told_saved(alloc, file, fault)?),
    }
}

/// How a fault of loading this file is told.
fn told_saved(alloc: Global, file: &str, fault: SavedFault) -> Result<CommandFault, NoMemory>
    ensures { IfOk result (λ told. told ≡ told_saved file.now fault) }
{
    let refusal = match fault {
        SavedFault::BadSaved { line } => SavedRefusal::BadSaved(line),
        SavedFault::OtherInterfaces { line } => SavedRefusal::OtherInterfaces(line),
        SavedFault::TooManySaved { count } => SavedRefusal::TooManySaved(count),
        SavedFault::SavedNoNode => SavedRefusal::SavedNoNode,
        SavedFault::NoMemory => return Ok(CommandFault::NoMemory),
    };
    Ok(CommandFault::Saved {
        file: text_of(alloc, file)?,
        fault: refusal,
    })
}
