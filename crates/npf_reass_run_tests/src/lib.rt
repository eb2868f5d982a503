// The tests of runs whose fragments are put together, through `reassemble` alone.
#![tactic(auto)]

#[cfg(test)]
mod runs;
