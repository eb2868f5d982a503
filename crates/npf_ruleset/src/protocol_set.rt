// Protocols as a set of bits, which may admit more than the rule: its program decides.
ghost use Rattle.std.specs.Prelude.{◌≡◌, ℕ, true};
ghost use Rattle.npf_ruleset.specs.Row.{HasProtocols, has_protocol};

/// A set of protocols by their numbers modulo 64, so that it may have more than were put in.
#[derive(Clone, Copy, Drop)]
pub(crate) struct ProtocolSet {
    bits: u64,
}

impl ProtocolSet {
    /// The set of the protocols that are listed. An empty list means all.
    pub(crate) fn of(protos: &[u8]) -> ProtocolSet
        ensures { HasProtocols protos.now result }
    {
        if protos.is_empty() {
            return ProtocolSet { bits: u64::MAX };
        }
        let mut set = ProtocolSet { bits: 0 };
        for proto in protos {
            set = set.with(*proto);
        }
        set
    }

    fn with(self, proto: u8) -> ProtocolSet
        ensures added { has_protocol result proto ≡ true }
        ensures kept { (other : ℕ) → has_protocol self other ≡ true → has_protocol result other ≡ true }
    {
        ProtocolSet {
            bits: self.bits | 1 << (proto % 64),
        }
    }

    pub(crate) fn has(&self, proto: u8) -> bool
        ensures { result ≡ has_protocol self.now proto }
    {
        self.bits >> (proto % 64) & 1 == 1
    }
}
