// What holds of errors that are translated. The functions do nothing: each is a theorem.
ghost use Rattle.npf_icmpalg.specs.ErrorVerified.{ErrorSumFollows, Icmpv6ErrorSumFollows};

/// Where a change isn't neutral, the sum of an error of ICMP that verified still verifies.
pub fn error_sum_follows()
    ensures { ErrorSumFollows }
{}

/// Where a change isn't neutral, the sum of an error of ICMPv6 that verified still verifies, with the
/// pseudo-header of the outer addresses.
pub fn icmpv6_error_sum_follows()
    ensures { Icmpv6ErrorSumFollows }
{}
