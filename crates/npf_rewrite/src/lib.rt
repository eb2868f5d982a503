// Translation and normalisation: a packet's addresses, ports, time to live, fragment field and
// maximum segment size are written in place, and the sums over them follow.
//
// Translation is that of RFC 3022 and, where a change keeps the sum of the addresses, of RFC 6296;
// normalisation is that of npf.conf(5), "Procedures": `min-ttl`, `no-df` and `max-mss`. A sum is
// adjusted by the 16-bit words that change (RFC 1624), never computed anew, so the payload isn't
// read and a wrong sum stays as wrong as it was. Where fields stand is npf_packet's to say.
//
// The contract: each call writes the words that `Translated` and `Normalised` name, with the
// values that these name, and changes no other byte. Neither takes memory nor can be refused; each
// asks that the packet's parts lie within its bytes, which those of a decoded packet do. Laws say
// of what is sent that a sum that verified still verifies, also after a neutral change that writes
// no port and keeps the sum of the addresses, that its lengths are the packet's, and that it decodes
// to the facts of the change. What npf_icmpalg writes in a packet it writes by `WordAt` and the
// calls beside it.
#![tactic(auto)]

mod address;
mod laws;
mod normalised;
mod sum;
mod translated;
mod word;

pub use address::{sum_after_end, write_end};
pub use laws::{
    absent_sum_stays, decoded_has_room, header_sum_follows, neutral_sums_follow,
    normalised_decodes, normalised_has_fields, normalised_sums_follow, sent_is_packet,
    sent_keeps_lengths, translated_decodes, upper_sum_follows,
};
pub use normalised::normalize;
pub use sum::{UDP_ZERO, ZERO, sum_after_named};
pub use translated::translate;
pub use word::{WordAt, named_word, write_named, write_word};
