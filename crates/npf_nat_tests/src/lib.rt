// The tests of maps and of the ports that they draw, through the public calls of npf_nat and npf_portmap alone: each arrow,
// algorithm, protocol and direction, and the addresses of RFC 6296. Expected values come from the RFCs and from computation by hand.
#![tactic(auto)]

#[cfg(test)]
mod comparison;
#[cfg(test)]
mod packet;
#[cfg(test)]
mod ports;
#[cfg(test)]
mod translations;
