// What is saved of a connection.
use crate::conn_id::ConnId;
use npf_types::Key;

/// A copy of a Live connection: its identity, its flow, and the key that it holds of each way.
#[derive(Clone, Copy, Debug, PartialEq, Eq)]
pub struct Kept<S> {
    pub id: ConnId,
    pub forward: Option<Key>,
    pub port: Option<Key>,
    pub backward: Option<Key>,
    pub state: S,
}
