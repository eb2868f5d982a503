// What holds of the files of packets. The function does nothing: it is a theorem.
ghost use Rattle.npf_ctl_witnesses.specs.FilesLaw.{WitnessesAreInFiles};

use npf_possible::possible_has_witness;

/// Each packet is in a capture, at its second, in bytes that decode to it; and the script has this capture come to its interface in its direction.
pub fn witnesses_are_in_files()
    ensures { WitnessesAreInFiles }
{
    possible_has_witness();
}
