// What holds of packets that are rewritten. The functions do nothing: each is a theorem.
ghost use Rattle.npf_rewrite.specs.Lengths.{NormalisedKeepsLengths, SentKeepsLengths, TranslatedKeepsLengths};
ghost use Rattle.npf_rewrite.specs.NormalisedFacts.{NormalisedDecodes};
ghost use Rattle.npf_rewrite.specs.NormalisedFields.{NormalisedHasFields};
ghost use Rattle.npf_rewrite.specs.NormalisedVerified.{NormalisedHeaderFollows, NormalisedUpperFollows};
ghost use Rattle.npf_rewrite.specs.Room.{DecodedHasRoom};
ghost use Rattle.npf_rewrite.specs.SentLaw.{SentIsPacket};
ghost use Rattle.npf_rewrite.specs.TranslatedFacts.{TranslatedDecodes};
ghost use Rattle.npf_rewrite.specs.Verified.{AbsentSumStays, HeaderSumFollows, NeutralHeaderSumFollows, NeutralUpperSumFollows, UpperSumFollows};

use npf_packet::decoded_has_places;

/// A decoded packet may be rewritten.
pub fn decoded_has_room()
    ensures { DecodedHasRoom }
{
    decoded_has_places();
}

/// Where a change isn't neutral, the sum of an IPv4 header that verified still verifies.
pub fn header_sum_follows()
    ensures { HeaderSumFollows }
{}

/// Where a change isn't neutral, the sum of TCP, UDP, ICMP or ICMPv6 that verified still verifies,
/// with the pseudo-header of its header's addresses; a datagram of UDP over IPv4 without a sum aside.
pub fn upper_sum_follows()
    ensures { UpperSumFollows }
{}

/// Where a change is neutral, writes no port and leaves the sum of the address words the same, the
/// sums that verified still verify (RFC 6296 section 3.6).
pub fn neutral_sums_follow()
    ensures header { NeutralHeaderSumFollows }
    ensures upper { NeutralUpperSumFollows }
{}

/// A datagram of UDP over IPv4 without a sum has none after a translation.
pub fn absent_sum_stays()
    ensures { AbsentSumStays }
{}

/// A translated packet decodes to the facts of the change: the same protocol, places and lengths,
/// with the named addresses and ports.
pub fn translated_decodes()
    ensures { TranslatedDecodes }
{}

/// All in front of a packet's IP header, its version and its lengths stay whatever is sent of it.
pub fn sent_keeps_lengths()
    ensures translated { TranslatedKeepsLengths }
    ensures normalised { NormalisedKeepsLengths }
    ensures sent { SentKeepsLengths }
{}

/// A normalised packet decodes to the same facts.
pub fn normalised_decodes()
    ensures { NormalisedDecodes }
{}

/// In a normalised packet the time to live, the bit "don't fragment" and the maximum segment size are
/// as the action says.
pub fn normalised_has_fields()
    ensures { NormalisedHasFields }
{}

/// The sum of an IPv4 header and that of what is carried, where they verified, still verify in a
/// normalised packet.
pub fn normalised_sums_follow()
    ensures header { NormalisedHeaderFollows }
    ensures upper { NormalisedUpperFollows }
{}

/// What is sent of a packet, normalised and then translated, is that packet with the ends of the
/// change: it has its lengths, it decodes to the facts of the change, and the sums that verified
/// verify.
pub fn sent_is_packet()
    ensures { SentIsPacket }
{}
