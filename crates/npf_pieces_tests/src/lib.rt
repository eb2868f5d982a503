// The tests of pieces of datagrams, of the sets that they make and of whole datagrams, through the public calls of npf_pieces alone.
// Expected values are reckoned by hand from the headers of RFC 791 and RFC 8200.
#![tactic(auto)]

#[cfg(test)]
mod datagrams;
#[cfg(test)]
mod joining;
#[cfg(test)]
mod pieces;
#[cfg(test)]
mod sets;
