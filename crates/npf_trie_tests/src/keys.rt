// Keys for the tests of many.
use npf_types::Key;

/// UDP from the port of the round, of 10.0.0.1, to port 53 of one of 16 addresses. Keys of two of the 16 rounds part at level 26, those of
/// one round at level 94. So what all of them need is a node for each level down to 26, and for each round one for each level
/// from there down to 94.
pub(crate) fn key_of(round: u32, place: u32) -> Key {
    Key([
        0x0411_0001_0000_0035 | u64::from(round % 16) << 16,
        0,
        0x0a00_0001,
        0,
        0x0808_0800 | u64::from(place % 16),
    ])
}

pub(crate) const KEYS_OF_ROUNDS: u32 = 256;

pub(crate) const NODES_OF_ROUNDS: u32 = 26 + 16 * 68;

/// Keys that look random, no two of them the same: each shows the whole state of a linear congruential generator whose period is
/// 2^64 (Knuth's, of MMIX), as the ports and the source of a connection over TCP to 8.8.8.8.
#[derive(Drop)]
pub(crate) struct Draws {
    state: u64,
}

impl Draws {
    pub(crate) fn new() -> Draws {
        Draws { state: 1 }
    }

    pub(crate) fn key(&mut self) -> Key {
        self.state = self
            .state
            .wrapping_mul(6_364_136_223_846_793_005)
            .wrapping_add(1_442_695_040_888_963_407);
        Key([
            0x0406_0001_0000_0000 | self.state >> 32,
            0,
            self.state & 0xFFFF_FFFF,
            0,
            0x0808_0808,
        ])
    }
}
