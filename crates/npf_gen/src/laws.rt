// What holds of every generated run. The functions do nothing: each is a theorem.
ghost use Rattle.npf_gen.specs.WorkloadLaw.{CaptureHasLength, CaptureReadsAgain, SumsVerify};

/// A capture has 880,024 bytes: its header's 24, and 44 for each of 20,000 records.
pub fn capture_has_length()
    ensures { CaptureHasLength }
{}

/// A capture is one of raw IP with the 20,000 records, so it is read as these.
pub fn capture_reads_again()
    ensures { CaptureReadsAgain }
{}

/// The sums of each packet, of its IPv4 header and of UDP with the pseudo-header, verify.
pub fn sums_verify()
    ensures { SumsVerify }
{}
