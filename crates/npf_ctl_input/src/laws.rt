// What follows of the stages, whatever the files: each function does nothing, and is a theorem.
ghost use Rattle.npf_ctl_input.specs.Laws.{ConfigurationsAreOfContents, FilesAreOfContents, InterfacesAreOfContents, LoadsAreOfContents};

/// Where contents are told and no read of any file fails, each stage comes to what it would come to over the contents alone.
pub fn contents_decide()
    ensures files { FilesAreOfContents }
    ensures interfaces { InterfacesAreOfContents }
    ensures configurations { ConfigurationsAreOfContents }
    ensures loads { LoadsAreOfContents }
{}
