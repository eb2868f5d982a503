// Small lemmas about lists, tests, options and results that the kit lacks and that proofs of several
// crates cite. It has no code.
#![tactic(auto)]
