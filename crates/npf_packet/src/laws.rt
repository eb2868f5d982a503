// What holds of every packet that is decoded, and of every fragment. The functions do nothing: each is a theorem.
//
// What follows of a decoding is said of a packet's facts alone, without the types by which decoding goes, and from the two places at which
// the headers begin: so one definition speaks of the record's bytes and of the packet's own.
ghost use Rattle.npf_packet.specs.DecodingLaw.{DecodedHasFields, DecodedHasPlaces, DecodedHasProtocol, DecodedIsPacket, OneDecoding};
ghost use Rattle.npf_packet.specs.FragmentAt.{FragmentIsSkipped, OneFragment};

/// For each link and bytes there is one decoding, so `decode` answers a decoding exactly where it
/// is the one.
pub fn one_decoding()
    ensures { OneDecoding }
{}

/// The parts of a packet follow one another within its record's bytes, each with room for its
/// header, and the number of a maximum segment size lies in its segment's header.
pub fn decoded_has_places()
    ensures { DecodedHasPlaces }
{}

/// A packet's facts are fields of its record's bytes, at the offsets of the RFCs, and what it
/// carries is told apart by its protocol.
pub fn decoded_has_fields()
    ensures fields { DecodedHasFields }
    ensures protocol { DecodedHasProtocol }
{}

/// A packet's facts are fields of its own bytes, from the IP header to its end.
pub fn decoded_is_packet()
    ensures { DecodedIsPacket }
{}

/// For each link and bytes there is one answer of `fragment`.
pub fn one_fragment()
    ensures { OneFragment }
{}

/// A record in which `fragment` finds one is skipped by `decode`.
pub fn fragment_is_skipped()
    ensures { FragmentIsSkipped }
{}
