// What holds of every pass that was split and is whole again. The function does nothing: it is a theorem.
ghost use Rattle.npf_runner_passes.specs.Whole.{GathersAll};

use npf_core::Law;

/// A pass that owns all reader places before it is split and after it took all in again sees what each of the passes did, and
/// nothing else that is new.
pub fn gathering_law<L: Law>()
    ensures { GathersAll L.meaning }
{}
