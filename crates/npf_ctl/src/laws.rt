// What holds whatever the words and the files: each function does nothing, and is a theorem.
ghost use Rattle.npf_ctl.specs.Limits.{AreLimits};

/// The limits have these numbers. Code and definitions name them, so that no other clause would tell another number.
pub fn limits()
    ensures { AreLimits }
{}
