// What follows of the stages, whatever the files: the function does nothing, and is a theorem.
ghost use Rattle.npf_ctl_prepare.specs.Laws.{RunsAreOfContents};

/// Where contents are told and no read of any file fails, a run is prepared as over the contents alone.
pub fn contents_decide()
    ensures { RunsAreOfContents }
{
    npf_ctl_input::laws::contents_decide();
}
