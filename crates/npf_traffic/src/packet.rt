// A packet that is played.
ghost use Rattle.std.specs.Prelude.{◌≡◌};
ghost use Rattle.std.specs.Borrow.{sem};
ghost use Rattle.npf_traffic.specs.Bytes.{LendsBytes};

use npf_types::{Dir, IfId, Link};
use std::marker::Model;

/// Why a fragment stays away from connections and rules.
#[derive(Clone, Copy, Debug, PartialEq, Eq)]
pub enum FragWhy {
    /// It waited for the rest of its datagram, or went into it.
    Held,
    /// It belongs to a datagram that is refused: its fragments overlap, or it would be too long.
    Overlap,
    /// It is no fragment of any datagram: its length isn't a multiple of 8, it is empty, or it ends too far.
    Bad,
}

/// A packet of a run: its time in nanoseconds, its record's link and bytes, and the interface that it crosses, this way. Its number is
/// its place among the run's packets, from 1. A fragment that is `held` goes no further, for this reason.
#[derive(Drop)]
pub struct Packet<'a> {
    pub time: u64,
    pub link: Link,
    pub ifid: IfId,
    pub dir: Dir,
    pub held: Option<FragWhy>,
    pub bytes: PacketBytes<'a>,
}

/// The bytes of a packet where its capture has them. It alone may change them. Contracts see the list of the bytes.
#[derive(Drop)]
pub struct PacketBytes<'a> {
    bytes: &'a mut [u8],
}

impl<'a> Model for PacketBytes<'a> {
    ghost use Rattle.std.specs.Prelude.{ℕ, List};

    ghost Value = { List ℕ };

    ghost view = { λ packet. packet.bytes.now };
}

impl<'a> PacketBytes<'a> {
    /// These bytes. It takes no memory.
    pub fn of(bytes: &'a mut [u8]) -> PacketBytes<'a>
        ensures { result ≡ bytes.old }
    {
        PacketBytes { bytes }
    }

    /// The bytes, in order.
    pub fn as_slice(&self) -> &[u8]
        ensures { result.now ≡ self.now }
    {
        &*self.bytes
    }

    /// The bytes, to be changed in place: their number stays.
    pub fn as_mut_slice(&mut self) -> &mut [u8]
        ensures* writes_back { sem 𝓛 (LendsBytes self.entry result) }
        ensures value { result.now ≡ self.old }
    {
        &mut *self.bytes
    }
}
