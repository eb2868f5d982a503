// What follows of what a script is. Each function does nothing: it is a theorem.
ghost use Rattle.npf_ctl_script.specs.Laws.{NoScriptIsRefused, OneScript};

/// A text reads as one script at most.
pub fn one_script()
    ensures { OneScript }
{}

/// No text that reads as a script has a first bad line.
pub fn no_script_is_refused()
    ensures { NoScriptIsRefused }
{}
