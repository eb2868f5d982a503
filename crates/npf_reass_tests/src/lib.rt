// The tests of pieces that passes gather by classes, through the public calls of npf_reass alone. Classes are reckoned by hand from
// the exclusive or of their keys. Each test gives the same answers whatever the schedule.
#![tactic(auto)]

#[cfg(test)]
mod beside;
#[cfg(test)]
mod classes;
#[cfg(test)]
mod lists;
#[cfg(test)]
mod offers;
