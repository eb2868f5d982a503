// The tests of the ICMP gateway, through the public calls of npf_packet and npf_icmpalg alone. The
// packets and their bytes were made by hand and by a separate program; each sum was checked by a
// sum over the bytes.
#![tactic(auto)]

#[cfg(test)]
mod comparison;
#[cfg(test)]
mod errors;
#[cfg(test)]
mod packet;
#[cfg(test)]
mod translations;
