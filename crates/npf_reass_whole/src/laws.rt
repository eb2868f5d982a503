// What holds of every run whose fragments are put together. The functions do nothing: each is a theorem.
ghost use Rattle.npf_reass_whole.specs.Whole.{NoFragmentsStay, WholeKeeps};

/// A run without fragments stays as it is.
pub fn no_fragments_stay()
    ensures { NoFragmentsStay }
{}

/// Each packet of a run crosses where and when it did.
pub fn whole_keeps()
    ensures { WholeKeeps }
{}
