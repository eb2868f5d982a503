// A capture as a value.
use npf_types::{Link, List};

/// A packet as it was captured: its time, in nanoseconds since 1970, and the bytes that were stored of it.
#[derive(Debug, Drop)]
pub struct Record {
    pub time: u64,
    pub bytes: List<u8>,
}

/// A capture: its link layer, and its records in the order of the file.
#[derive(Debug, Drop)]
pub struct Capture {
    pub link: Link,
    pub records: List<Record>,
}
