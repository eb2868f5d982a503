// Where a capture's packets stand in its bytes, so that a run needn't copy them: a page of fresh memory costs more than a packet's bytes.
ghost use Rattle.std.specs.Prelude.{◌≡◌, length};
ghost use Rattle.npf_pcap.specs.Extent.{bytes_at, EndsWithin};

use npf_types::{Link, List};

/// Where a capture has a packet: the time of the packet, in nanoseconds since 1970, and the place and number of the bytes that
/// were stored of it.
#[derive(Clone, Copy, Debug)]
pub struct Extent {
    pub time: u64,
    pub at: u32,
    pub len: u32,
}

impl Extent {
    /// The packet's bytes, among those of its capture.
    pub fn bytes_in(self, capture: &[u8]) -> &[u8]
        requires { EndsWithin (length capture.now) self }
        ensures { result.now ≡ bytes_at capture.now self }
    {
        capture
            .split_at(self.at as usize)
            .1
            .split_at(self.len as usize)
            .0
    }
}

/// A capture's link layer, and where its packets are, in the order of the file.
#[derive(Debug, Drop)]
pub struct Extents {
    pub link: Link,
    pub extents: List<Extent>,
}
