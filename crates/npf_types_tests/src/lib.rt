// The tests of plain data, of fields in bytes and of the outside, through the public calls of npf_types, npf_fields and npf_outside
// alone. Expected values come from the RFCs and npf.conf(5), and from computation by hand.
#![tactic(auto)]

#[cfg(test)]
mod comparison;
#[cfg(test)]
mod fields;
#[cfg(test)]
mod outside;
#[cfg(test)]
mod plain_data;
