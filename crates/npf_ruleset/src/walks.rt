// The rule that decides on a packet.
ghost use Rattle.std.specs.Prelude.{◌≡◌, ◌<◌, false, All, IfSome, length};
ghost use Rattle.npf_model.specs.Configuration.{verdict_of};
ghost use Rattle.npf_model.specs.Verdict.{first_where, last_where};
ghost use Rattle.npf_bpfgen.specs.Premise.{AreBytes};
ghost use Rattle.npf_packet.specs.PacketField.{IsPacketOf};
ghost use Rattle.npf_ruleset.specs.Configuration.{configuration};
ghost use Rattle.npf_ruleset.specs.Packet.{answer_in, flat_answer, flat_decides, is_other};

use crate::config::Config;
use crate::flat::{FlatGroup, FlatRule};
use crate::packet::PacketView;
use crate::row::PacketEnd;
use npf_types::{Dir, Facts, IfId};

/// The place, counted from 0 in the order of inspection, of the rule that decides on a packet, or
/// None exactly where no rule matches. `ip` is the packet from its IP header to its end, and the
/// facts are those of that packet. It takes no memory.
pub fn walk(config: &Config, facts: &Facts, ip: &[u8], ifid: IfId, dir: Dir) -> Option<u32>
    requires { IsPacketOf ip.now facts.now }
    ensures { result ≡ verdict_of (configuration config.now) facts.now ifid dir }
{
    let packet = PacketView {
        facts,
        ip,
        ifid,
        dir,
        tables: config.tables(),
        source: PacketEnd::source(facts),
        destination: PacketEnd::destination(facts),
    };
    packet.walk(config)
}

impl PacketView<'_> {
    // The walk, for a packet with the configuration's tables.
    fn walk(&self, config: &Config) -> Option<u32>
        requires tables { self.now.tables.now ≡ config.now.tables.items }
        requires bytes { AreBytes self.now.ip.now }
        requires packet { IsPacketOf self.now.ip.now self.now.facts.now }
        ensures { result ≡ verdict_of (configuration config.now) self.now.facts.now self.now.ifid self.now.dir }
    {
        let mut rules = config.rules();
        let mut first = 0;
        for group in config.groups() {
            let (inside, behind) = rules.split_at(group.count);
            if let Some(at) = self.answer_in(group, inside) {
                return Some(first + at as u32);
            }
            first += group.count as u32;
            rules = behind;
        }
        None
    }

    // The answer of a group with these rules: none where it doesn't apply.
    fn answer_in(&self, group: &FlatGroup, rules: &[FlatRule]) -> Option<usize>
        requires { group.now.finals ≡ false → All (λ rule. rule.last ≡ false) rules.now }
        ensures value { result ≡ answer_in self.now group.now rules.now }
        ensures bound { IfSome result (λ at. at < length rules.now) }
    {
        if group.binding.leaves(self.ifid, self.dir) {
            return self.answer_of(group.finals, rules);
        }
        None
    }

    // A group's answer: its first match with `final`, where it has one, or else its last match, which is then one without `final`.
    fn answer_of(&self, finals: bool, rules: &[FlatRule]) -> Option<usize>
        requires { finals ≡ false → All (λ rule. rule.last ≡ false) rules.now }
        ensures value { result ≡ flat_answer self.now rules.now }
        ensures bound { IfSome result (λ at. at < length rules.now) }
    {
        match self.first_decider(finals, rules) {
            Some(at) => Some(at),
            None => self.last_other(rules),
        }
    }

    // The first match with `final`. Rules of which none is `final` aren't gone over.
    fn first_decider(&self, finals: bool, rules: &[FlatRule]) -> Option<usize>
        requires { finals ≡ false → All (λ rule. rule.last ≡ false) rules.now }
        ensures value { result ≡ first_where (flat_decides self.now) 0 rules.now }
        ensures bound { IfSome result (λ at. at < length rules.now) }
    {
        if finals {
            self.first_final(rules)
        } else {
            None
        }
    }

    fn first_final(&self, rules: &[FlatRule]) -> Option<usize>
        ensures value { result ≡ first_where (flat_decides self.now) 0 rules.now }
        ensures bound { IfSome result (λ at. at < length rules.now) }
    {
        for (at, rule) in rules.iter().enumerate() {
            if self.decides(rule) {
                return Some(at);
            }
        }
        None
    }

    fn last_other(&self, rules: &[FlatRule]) -> Option<usize>
        ensures value { result ≡ last_where (is_other self.now) 0 rules.now }
        ensures bound { IfSome result (λ at. at < length rules.now) }
    {
        for at in (0..rules.len()).rev() {
            if self.is_other(&rules[at]) {
                return Some(at);
            }
        }
        None
    }

    // A match that decides at once.
    fn decides(&self, rule: &FlatRule) -> bool
        ensures { result ≡ flat_decides self.now rule.now }
    {
        rule.last && self.meets(rule)
    }

    fn is_other(&self, rule: &FlatRule) -> bool
        ensures { result ≡ is_other self.now rule.now }
    {
        !rule.last && self.meets(rule)
    }
}
