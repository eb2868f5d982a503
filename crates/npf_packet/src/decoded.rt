// What a packet is decoded as.
use npf_types::Facts;

/// What is wrong with a packet: it ends too early, or a field says what can't be.
#[derive(Clone, Copy, Debug, PartialEq, Eq)]
pub enum BadPacket {
    Cut,
    Bad,
}

/// What a record's bytes say. `at` is a place in bytes from the record's first.
#[derive(Clone, Copy, Debug, PartialEq, Eq)]
pub enum Decoded {
    /// A packet that this project doesn't look into: another EtherType, or a fragment, which `fragment` tells.
    Skip,
    Malformed { why: BadPacket, at: u32 },
    Ip(Facts),
}

impl Decoded {
    ghost use Rattle.std.specs.Prelude.{◌≡◌, ◌<◌, ◌^◌};
    ghost use Rattle.npf_packet.specs.Decoded.{cut, bad};

    /// The packet should go on at this place.
    pub(crate) fn cut(at: usize) -> Decoded
        requires { at < 2 ^ 32 }
        ensures { result ≡ cut at }
    {
        Decoded::Malformed {
            why: BadPacket::Cut,
            at: at as u32,
        }
    }

    /// The field at this place says what can't be.
    pub(crate) fn bad(at: usize) -> Decoded
        requires { at < 2 ^ 32 }
        ensures { result ≡ bad at }
    {
        Decoded::Malformed {
            why: BadPacket::Bad,
            at: at as u32,
        }
    }
}
