// The datagrams of a run, which stand one behind the other while its packets do.
ghost use Rattle.std.specs.Prelude.{◌≡◌, length, sum_by};

use crate::arrived::Arrived;
use crate::datagram::{datagram_len, first_of, last_place, lay_out};
use crate::datagram_at::{DatagramAt, put_at};
use npf_traffic::Packet;
use npf_types::NoMemory;
use std::alloc::Global;

/// The datagrams that were put together so far.
#[derive(Drop)]
pub struct Datagrams {
    pub(crate) bytes: Vec<u8>,
    pub(crate) extents: Vec<DatagramAt>,
    ghost sized: { sum_by (λ d. d.len) extents.items ≡ length bytes.items },
}

/// Where the datagrams of a run stand while its packets do.
#[derive(Drop)]
pub struct DatagramBytes {
    bytes: Vec<u8>,
}

impl DatagramBytes {
    /// None yet.
    pub fn new(alloc: Global) -> DatagramBytes {
        DatagramBytes {
            bytes: Vec::new(alloc),
        }
    }
}

impl Datagrams {
    ghost use Rattle.std.specs.Prelude.{◌≡◌, ◌<◌, [], All, IfOk, OnErr, length};
    ghost use Rattle.npf_pieces.specs.Datagram.{IsWholeSet, StandsAmong};
    ghost use Rattle.npf_pieces.specs.DatagramAt.{with_datagrams};
    ghost use Rattle.npf_pieces.specs.Datagrams.{AddsDatagram, laid_out};

    /// None yet.
    pub fn new(alloc: Global) -> Datagrams
        ensures { laid_out result ≡ [] }
    {
        Datagrams {
            bytes: Vec::new(alloc),
            extents: Vec::new(alloc),
        }
    }

    /// Lays out the datagram of a whole set behind the others. The last of the set to come becomes it.
    pub fn add(&mut self, packets: &[Packet<'_>], set: &[Arrived]) -> Result<(), NoMemory>
        requires whole { IsWholeSet set.now }
        requires stand { All (StandsAmong packets.now) set.now }
        ensures adds { IfOk result (λ _. AddsDatagram packets.now set.now (laid_out self.old) (laid_out self.new)) }
        ensures same { OnErr result (laid_out self.new ≡ laid_out self.old) }
    {
        let first = first_of(set);
        let len = datagram_len(set, first);
        let at = self.bytes.len();
        self.extents.reserve(1)?;
        self.bytes.resize(at + len, 0)?;
        lay_out(&mut self.bytes[at..], packets, set, first);
        self.extents.push_reserved(DatagramAt {
            place: last_place(set),
            len,
        });
        Ok(())
    }

    /// Puts each datagram in place of the packet that becomes it. They stand in the keeper, in place of what was there.
    pub fn put_into<'a>(self, keeper: &'a mut DatagramBytes, packets: &mut [Packet<'a>])
        requires { All (λ d. d.place < length packets.old) (laid_out self) }
        ensures { packets.new ≡ with_datagrams (laid_out self) packets.old }
    {
        let Datagrams { bytes, extents } = self;
        keeper.bytes = bytes;
        put_at(keeper.bytes.as_mut_slice(), extents.as_slice(), packets);
    }
}
