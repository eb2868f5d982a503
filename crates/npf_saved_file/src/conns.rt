// Which connection may stand behind others in a saved file.
ghost use Rattle.std.specs.Prelude.{◌≡◌, ◌↔◌, ◌∷◌, ◌++◌, [], IfOk, IsTrue, List};
ghost use Rattle.std.specs.List.{flat_map};
ghost use Rattle.npf_types.specs.declared.key.Key.{Key as KeyType};
ghost use Rattle.npf_saved.specs.Fields.{FitsSaved};
ghost use Rattle.npf_saved_file.specs.Conns.{AddsConn, AreDistinct, AreRising, AreSavedConns, ComesBefore, HasKeys, IsPacketKey, HasKeysOfItsWays, TakesKeys, key_list, saved_keys, source_port_key};

use npf_key::port_key;
use npf_saved::Saved;
use npf_types::{End, Key, NoMemory};
use std::cmp::Ordering;
use std::collections::HashSet;

/// The least first number of a key that begins with another digit than 0, in sixteen digits.
const FIRST_DIGIT: u64 = 1 << 60;

/// Puts the connection behind these, whose keys the set has. False where it may not stand there;
/// then the set may have got some of its keys.
pub(crate) fn add_conn(
    conns: &mut Vec<Saved>,
    keys: &mut HashSet<Key>,
    saved: Saved,
) -> Result<bool, NoMemory>
    requires good { AreSavedConns conns.old.items }
    requires known { HasKeys keys.old.keys (flat_map saved_keys conns.old.items) }
    requires fits { FitsSaved saved }
    ensures { IfOk result (AddsConn conns.old.items saved conns.new.items keys.new.keys) }
{
    if !is_placed(&saved) || !rises(conns, &saved) {
        return Ok(false);
    }
    if !take_keys(keys, &saved)? {
        return Ok(false);
    }
    conns.push(saved)?;
    Ok(true)
}

/// Whether the connection's keys are of the kinds of their ways.
fn is_placed(saved: &Saved) -> bool
    ensures { IsTrue result ↔ HasKeysOfItsWays saved.now }
{
    is_packet_key(&saved.forward)
        && saved.backward.is_none_or(|key| is_packet_key(&key))
        && saved.port == source_port_key(&saved.flow.there.src)
}

fn is_packet_key(key: &Key) -> bool
    ensures { IsTrue result ↔ IsPacketKey key.now }
{
    key.0[0] < FIRST_DIGIT
}

/// The key of the port that a translation gives the source, where it gives one.
fn source_port_key(source: &Option<End>) -> Option<Key>
    ensures { result ≡ source_port_key source.now }
{
    let end = (*source)?;
    end.port.map(|port| port_key(end.addr, port))
}

/// Whether the connection's forward key is behind that of the last of these, which rise.
fn rises(conns: &[Saved], saved: &Saved) -> bool
    requires { AreRising conns.now }
    ensures { IsTrue result ↔ AreRising (conns.now ++ saved.now ∷ []) }
{
    match conns.last() {
        None => true,
        Some(last) => is_before(last, saved),
    }
}

fn is_before(one: &Saved, other: &Saved) -> bool
    ensures { IsTrue result ↔ ComesBefore one.now other.now }
{
    matches!(one.forward.cmp(&other.forward), Ordering::Less)
}

/// Takes the connection's keys into the set. False where one is there.
fn take_keys(keys: &mut HashSet<Key>, saved: &Saved) -> Result<bool, NoMemory>
    ensures { IfOk result (λ taken. (known : List KeyType) → HasKeys keys.old.keys known
        → AreDistinct known → TakesKeys known (saved_keys saved.now) keys.new.keys taken) }
{
    if !take_key(keys, Some(saved.forward))? {
        return Ok(false);
    }
    if !take_key(keys, saved.port)? {
        return Ok(false);
    }
    take_key(keys, saved.backward)
}

/// Takes the key into the set, if there is one. False where it is there.
fn take_key(keys: &mut HashSet<Key>, key: Option<Key>) -> Result<bool, NoMemory>
    ensures { IfOk result (λ taken. (known : List KeyType) → HasKeys keys.old.keys known
        → AreDistinct known → TakesKeys known (key_list key) keys.new.keys taken) }
{
    match key {
        None => Ok(true),
        Some(key) => Ok(keys.insert(key)?),
    }
}
