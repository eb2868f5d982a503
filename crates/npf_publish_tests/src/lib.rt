// The tests of what threads share, a file a subject, through the public calls of their crates alone: a crate that has tests of its
// own would be proved twice. Each test gives the same answers whatever the schedule. They are put into lines of text, which are compared.
#![tactic(auto)]

#[cfg(test)]
mod answers;
#[cfg(test)]
mod beside;
#[cfg(test)]
mod reads;
