// A connection as a file has it.
use npf_flow::Flow;
use npf_types::Key;

/// A connection of a saved file: its key of each way, and its flow. The number of the packet that
/// opened it isn't saved: it is 0.
#[derive(Clone, Copy, Debug, PartialEq, Eq)]
pub struct Saved {
    pub forward: Key,
    pub port: Option<Key>,
    pub backward: Option<Key>,
    pub flow: Flow,
}
