// What follows of the words of a command line.
ghost use Rattle.npf_ctl_words.specs.Laws.{OneCommand};

/// Words say one command at most, but for where in memory its names of files lie.
#[tactic(auto, using(crate::proofs::SameLemmas::one_command))]
pub fn one_command()
    ensures { OneCommand }
{}
