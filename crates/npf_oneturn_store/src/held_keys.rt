// The keys of one connection.
use npf_types::Key;

/// The keys that a connection holds.
#[derive(Clone, Copy, Debug, PartialEq, Eq)]
pub struct HeldKeys {
    pub forward: Option<Key>,
    pub backward: Option<Key>,
    pub port: Option<Key>,
}
