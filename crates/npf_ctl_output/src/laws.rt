// What holds of every run's packets. The function does nothing: it is a theorem.
ghost use Rattle.npf_ctl_output.specs.Outputs.{PlayedAreOutputs};

/// A run leaves each packet as it was but for its bytes, and lets only packets of IP pass. So what is reported and written of a run
/// speaks of the packets that it began with.
pub fn played_are_outputs()
    ensures { PlayedAreOutputs }
{}
