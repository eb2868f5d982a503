// The tests of what a run does at one time: packets through workers on threads of their own, and packets that open connections, one after
// the other, where others may have opened them first. They are put to each kind of table of connections, under one turn and without locks.
// What is expected of a packet follows from its configuration and from the order that a gate enforces; the numbers of keys are worked
// out by hand from their layout, which npf_key tells. What is answered is put into lines of text, which are compared.
#![tactic(auto)]

#[cfg(test)]
mod answers;
#[cfg(test)]
mod expiry;
#[cfg(test)]
mod freeing;
#[cfg(test)]
mod gates;
#[cfg(test)]
mod meeting;
#[cfg(test)]
mod openings;
#[cfg(test)]
mod packets;
#[cfg(test)]
mod run;
#[cfg(test)]
mod threads;
#[cfg(test)]
mod watched;
