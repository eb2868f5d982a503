// The connections of the table, saved behind a run.
ghost use Rattle.std.specs.Prelude.{◌≡◌, IfErr, IfSome, OnOk, option_map};
ghost use Rattle.npf_connections.specs.Pass.{all_places};
ghost use Rattle.npf_connections.specs.Stay.{IsOut};
ghost use Rattle.npf_ctl.specs.Ends.{FailsSave};
ghost use Rattle.npf_ctl.specs.Run.{IsSavedTo};
ghost use Rattle.npf_ctl_output.specs.File.{HasReadOn, IsUnwritten, KeepsUnnamed};
ghost use Rattle.npf_flow.specs.Flows.{flow_law};
ghost use Rattle.npf_outside.specs.Files.{SameOthers};

use npf_connections::Connections;
use npf_connsave::save;
use npf_ctl_messages::CommandFault;
use npf_ctl_output::write_file;
use npf_flow::FlowLaw;
use npf_outside::Files;
use npf_types::Name;
use std::alloc::Global;
use std::sync::Wait;

/// Saves the connections of the table to the file of this name, if there is one, for a run of these
/// interfaces. The pass owns all reader places, and stays as it is.
#[tactic(auto, using(crate::proofs::FileLemmas::keeps_itself, crate::proofs::FileLemmas::read_on))]
pub(crate) fn save_connections<R: Wait, F: Files, C: Connections<FlowLaw>>(
    rt: &R,
    alloc: Global,
    file: Option<&str>,
    names: &[Name],
    files: &mut F,
    conns: &C,
    pass: &mut C::Pass,
) -> Result<(), CommandFault>
    requires out { IsOut flow_law (C.fits conns.now) C.view pass.old }
    requires sole { (C.view pass.old).places ≡ all_places }
    ensures saved { OnOk result (IfSome (option_map (λ name. name.now) file.entry) (IsSavedTo (F.moment files.new) (C.view pass.old) names.now)) }
    ensures fails { IfErr result (FailsSave (option_map (λ name. name.now) file.entry) (F.moment files.old) (F.moment files.new)) }
    ensures others { KeepsUnnamed (option_map (λ name. name.now) file.entry) (F.moment files.old).contents (F.moment files.new).contents }
    ensures reads { HasReadOn (F.moment files.old) (F.moment files.new) }
    ensures out { IsOut flow_law (C.fits conns.now) C.view pass.new }
    ensures same { C.view pass.new ≡ C.view pass.old }
{
    match file {
        None => Ok(()),
        Some(file) => save_file(rt, alloc, file, names, files, conns, pass),
    }
}

#[tactic(auto, using(crate::proofs::FileLemmas::others_itself, crate::proofs::FileLemmas::read_on))]
fn save_file<R: Wait, F: Files, C: Connections<FlowLaw>>(
    rt: &R,
    alloc: Global,
    file: &str,
    names: &[Name],
    files: &mut F,
    conns: &C,
    pass: &mut C::Pass,
) -> Result<(), CommandFault>
    requires out { IsOut flow_law (C.fits conns.now) C.view pass.old }
    requires sole { (C.view pass.old).places ≡ all_places }
    ensures saved { OnOk result (IsSavedTo (F.moment files.new) (C.view pass.old) names.now file.now) }
    ensures fails { IfErr result (IsUnwritten (F.moment files.old) (F.moment files.new) file.now) }
    ensures others { SameOthers (F.moment files.old).contents (F.moment files.new).contents file.now }
    ensures reads { HasReadOn (F.moment files.old) (F.moment files.new) }
    ensures out { IsOut flow_law (C.fits conns.now) C.view pass.new }
    ensures same { C.view pass.new ≡ C.view pass.old }
{
    let text = save(rt, alloc, conns, pass, names)?;
    write_file(alloc, file, text.as_slice(), files)
}
