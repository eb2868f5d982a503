// What is wrong with bytes that are no capture.
//
// The line for people and the contracts read one table, of a number and a name for each fault. Out of memory has the number 0, which is
// never printed.
ghost use Rattle.std.specs.Prelude.{◌≡◌};
ghost use Rattle.npf_pcap.specs.Fault.{number_of, name_of, record_of};

use npf_types::limits::MAX_PACKET_BYTES;
use std::alloc::{AllocError, AllocFailed};
use thiserror::Error;

/// Why bytes aren't a capture: the first test that they fail. Records are counted from 1.
#[derive(Clone, Copy, Debug, PartialEq, Eq, Error)]
pub enum CaptureFault {
    /// The file header isn't whole.
    #[error("the header has fewer than 24 bytes")]
    ShortHeader,
    /// The magic number is none of the four that captures begin with.
    #[error("the magic number is none of a capture")]
    BadMagic,
    /// The version isn't 2.4.
    #[error("the version isn't 2.4")]
    BadVersion,
    /// The link type is neither 1 nor 101.
    #[error("the link type is neither 1 nor 101")]
    BadLink,
    /// The bytes end inside this record.
    #[error("the bytes end inside record {0}")]
    CutRecord(u32),
    /// This record says that it stores more than `MAX_PACKET_BYTES` bytes.
    #[error("record {0} is longer than {most} bytes", most = MAX_PACKET_BYTES)]
    LongRecord(u32),
    /// Memory ran out, which says nothing of the bytes.
    #[error("out of memory")]
    NoMemory,
}

impl CaptureFault {
    /// The number that is printed for the fault; 0 for want of memory, which has none.
    pub fn number(&self) -> u8
        ensures { result ≡ number_of self.now }
    {
        match self {
            CaptureFault::ShortHeader => 1,
            CaptureFault::BadMagic => 2,
            CaptureFault::BadVersion => 3,
            CaptureFault::BadLink => 4,
            CaptureFault::CutRecord(_) => 5,
            CaptureFault::LongRecord(_) => 6,
            CaptureFault::NoMemory => 0,
        }
    }

    /// The name that is printed for the fault.
    pub fn name(&self) -> &'static str
        ensures { result.now ≡ name_of self.now }
    {
        match self {
            CaptureFault::ShortHeader => "ShortHeader",
            CaptureFault::BadMagic => "BadMagic",
            CaptureFault::BadVersion => "BadVersion",
            CaptureFault::BadLink => "BadLink",
            CaptureFault::CutRecord(_) => "CutRecord",
            CaptureFault::LongRecord(_) => "LongRecord",
            CaptureFault::NoMemory => "NoMemory",
        }
    }

    /// The number, from 1, of the record that the fault speaks of; None where it speaks of none.
    pub fn record_number(&self) -> Option<u32>
        ensures { result ≡ record_of self.now }
    {
        match self {
            CaptureFault::CutRecord(number) | CaptureFault::LongRecord(number) => Some(*number),
            _ => None,
        }
    }
}

impl From<AllocError> for CaptureFault {
    ghost use Rattle.npf_pcap.specs.declared.fault.CaptureFault.TheVariants.{NoMemory};

    ghost from_gives = { λ _ e. e ≡ NoMemory };

    fn from(_error: AllocError) -> CaptureFault {
        CaptureFault::NoMemory
    }
}

impl<T: Drop> From<AllocFailed<T>> for CaptureFault {
    ghost use Rattle.npf_pcap.specs.declared.fault.CaptureFault.TheVariants.{NoMemory};

    ghost from_gives = { λ _ e. e ≡ NoMemory };

    fn from(_error: AllocFailed<T>) -> CaptureFault {
        CaptureFault::NoMemory
    }
}
