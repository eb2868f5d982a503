// Keys as sums of their parts.
//
// They are defined by sums of powers of two and made by shifts: each part is below the next one's power, so the laws follow by arithmetic.
// The version is that of the source's family; a packet's addresses are of one.
ghost use Rattle.std.specs.Prelude.{◌≡◌};
ghost use Rattle.npf_key.specs.Key.{key_between, key_of, backward_key, port_key};

use crate::port::{destination_port, source_port};
use crate::translated::{about, facts_there};
use crate::word::{first_word, lower, marked_word, upper};
use npf_types::{Addr, Change, Facts, IfId, Key};

/// The key of a packet on this interface, as it came.
pub fn key_of(facts: &Facts, ifid: IfId) -> Key
    ensures { result ≡ key_of facts.now ifid }
{
    let sport = source_port(&facts.l4);
    let dport = destination_port(&facts.l4);
    key_between(facts.proto, facts.src, sport, facts.dst, dport, ifid)
}

/// The key on this interface of what has the protocol `proto` and goes from the port `sport` of `src` to the port `dport` of `dst`.
/// An echo's identifier stands for both ports, and 0 where there are none. Both addresses are of the family of `src`.
pub fn key_between(proto: u8, src: Addr, sport: u16, dst: Addr, dport: u16, ifid: IfId) -> Key
    ensures { result ≡ key_between proto src sport dst dport ifid }
{
    Key([
        first_word(proto, src, sport, dport, ifid),
        upper(src),
        lower(src),
        upper(dst),
        lower(dst),
    ])
}

/// The forward key and the backward key of a packet that `there` translates: the key of the packet as it came, and that of
/// the answers to the translated packet.
pub fn keys_of(facts: &Facts, ifid: IfId, there: &Change) -> (Key, Key)
    ensures forward { result.0 ≡ key_of facts.now ifid }
    ensures backward { result.1 ≡ backward_key facts.now ifid there.now }
{
    let translated = facts_there(facts, there);
    (key_of(facts, ifid), key_of(&about(&translated), ifid))
}

/// The key of a port, or of an echo's identifier, that a translation draws at this address.
pub fn port_key(addr: Addr, port: u16) -> Key
    ensures { result ≡ port_key addr port }
{
    Key([marked_word(addr, port), upper(addr), lower(addr), 0, 0])
}
