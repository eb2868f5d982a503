// The greatest number of each thing that a run takes. Each is the last that is taken: what passes it is refused by the call
// that meets it.
//
// Code takes a limit by `use npf_types::limits::..`, and a clause of that file names it as the code does. A file of specs/ or
// proofs/ imports it from `Rattle.npf_types.specs.declared.limits.TheConstants`, and sees its number.

/// Bytes of a packet, as a capture's record stores it.
pub const MAX_PACKET_BYTES: usize = 262_144;

/// Bytes of a capture.
pub const MAX_CAPTURE_BYTES: usize = 268_435_456;

/// Bytes of all captures of a run together.
pub const MAX_BYTES_OF_CAPTURES: usize = 268_435_456;

/// Bytes of a text that is read: a configuration, a table file, a script or a file of interfaces.
pub const MAX_TEXT_BYTES: usize = 4_194_304;

/// Rules of a configuration, with those that were added to its rulesets.
pub const MAX_RULES: usize = 4_096;

/// Address tables of a configuration.
pub const MAX_TABLES: usize = 64;

/// Maps (network address translations) of a configuration.
pub const MAX_MAPS: usize = 256;

/// Procedures of a configuration.
pub const MAX_PROCEDURES: usize = 64;

/// Elements of all lists of a configuration, once its variables are replaced.
pub const MAX_LIST_ELEMENTS: usize = 262_144;

/// Entries of all address tables of a configuration.
pub const MAX_TABLE_ENTRIES: usize = 131_072;

/// BPF instructions of all rules of a configuration.
pub const MAX_INSTRUCTIONS: usize = 524_288;

/// The weight of a rule, which bounds the BPF instructions that it is compiled to.
pub const MAX_RULE_WEIGHT: usize = 4_096;

/// Packets of a run.
pub const MAX_PACKETS: usize = 1_000_000;

/// Captures of a run.
pub const MAX_CAPTURES: usize = 16;

/// Phases of a run's script.
pub const MAX_PHASES: usize = 1_024;

/// Changes of the configuration in a run's script.
pub const MAX_CHANGES: usize = 256;

/// Interfaces of a run.
pub const MAX_INTERFACES: usize = 64;

/// Connections that are kept at a time.
pub const MAX_CONNECTIONS: usize = 65_536;

/// Bytes of a file of saved connections.
pub const MAX_SAVED_BYTES: usize = 67_108_864;

/// Nodes of the tree in which connections are looked up.
pub const MAX_NODES: usize = 262_144;

/// Places of readers in a table that is read without locks.
pub const MAX_READERS: usize = 66;
