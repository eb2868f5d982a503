// What became of a packet.
ghost use Rattle.std.specs.Prelude.{◌≡◌};
ghost use Rattle.npf_engine.specs.Outcome.{passes};

use npf_core::ConnId;
use npf_engine_opening::Refusal;
use npf_packet::BadPacket;
use npf_traffic::FragWhy;
use npf_types::{Decision, Name};

/// What happened to a packet. The small fields of a variant stand first: so an outcome takes 64 bytes.
#[derive(Clone, Copy, Debug, PartialEq, Eq)]
pub enum Outcome {
    /// It isn't looked into, and doesn't pass.
    Skip,
    /// It is a fragment that is held, and goes no further.
    Fragment {
        why: FragWhy,
    },
    /// It is malformed at this place of its bytes.
    Malformed {
        why: BadPacket,
        at: u32,
    },
    /// A live connection took it as its step of this place, and passed it or not. `opener` is the number of the packet that opened
    /// the connection, and `log` the interface that the connection's packets are logged to.
    ByConn {
        id: ConnId,
        opener: u64,
        place: u64,
        pass: bool,
        log: Option<Name>,
    },
    /// The configuration of this number, from 0, was asked, and the rule at this place, from 0, decided, None where none did. The
    /// packet opened this connection, or none was to be opened.
    ByRule {
        decision: Decision,
        log: Option<Name>,
        rule: Option<u32>,
        config: u64,
        opened: Option<ConnId>,
    },
    /// The rule at this place of that configuration passed it, and it goes on without the connection that it was to open.
    Unkept {
        log: Option<Name>,
        rule: u32,
        config: u64,
        why: Refusal,
    },
    /// The rule at this place of that configuration passed it, and it couldn't be translated.
    Dropped {
        rule: u32,
        config: u64,
        why: Refusal,
    },
}

impl Outcome {
    /// Whether the packet goes on.
    pub fn passes(&self) -> bool
        ensures { result ≡ passes self.now }
    {
        match *self {
            Outcome::ByConn { pass, .. } => pass,
            Outcome::ByRule { decision, .. } => decision == Decision::Pass,
            Outcome::Unkept { .. } => true,
            Outcome::Skip
            | Outcome::Fragment { .. }
            | Outcome::Malformed { .. }
            | Outcome::Dropped { .. } => false,
        }
    }
}
