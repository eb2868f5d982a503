// The one spelling of a capture that is written.
ghost use Rattle.std.specs.Prelude.{◌≡◌, ◌≤◌, ◌+◌, ◌++◌, IfOk, IsOk, OnOk, All, length, vec_len, vec_capacity};
ghost use Rattle.byteorder.specs.Endian.{little_bytes};
ghost use Rattle.npf_pcap.specs.Capture.{IsCapture};
ghost use Rattle.npf_pcap.specs.Spelling.{FitsCapture, capture_bytes, header_bytes, record_bytes, record_with};

use crate::capture::Record;
use npf_types::limits::MAX_PACKET_BYTES;
use npf_types::{Link, NoMemory};
use std::alloc::Global;

/// Writes a capture of these records with link `Raw`: the lowest byte first, in nanoseconds, zone and accuracy 0, and
/// a snap length of `MAX_PACKET_BYTES`. Each record must have at most that many bytes, and a time below 4,294,967,296 seconds; its
/// two lengths are both the number of its bytes.
pub fn write_capture(alloc: Global, records: &[Record]) -> Result<Vec<u8>, NoMemory>
    requires { All FitsCapture records.now }
    ensures spelling { IfOk result (λ v. v.items ≡ capture_bytes records.now) }
    ensures reads_again { IfOk result (λ v. IsCapture v.items Link.Raw records.now) }
{
    let mut out = Vec::new(alloc);
    append_header(&mut out)?;
    for record in records {
        append_record(&mut out, record.time, record.bytes.as_slice())?;
    }
    Ok(out)
}

/// Appends the header that `write_capture` writes: the magic number, the version, the time zone, the accuracy, the snap length
/// and the link type. Where memory runs out, nothing is said of what `out` holds; where it has room, none is asked for.
pub fn append_header(out: &mut Vec<u8>) -> Result<(), NoMemory>
    ensures spelling { OnOk result (out.new.items ≡ out.old.items ++ header_bytes) }
    ensures succeeds { vec_len out.old + 24 ≤ vec_capacity out.old → IsOk result }
    ensures capacity { vec_capacity out.old ≤ vec_capacity out.new }
{
    write_u32(out, 0xa1b2_3c4d)?;
    out.extend_from_slice(&[2, 0, 4, 0])?;
    write_u32(out, 0)?;
    write_u32(out, 0)?;
    write_u32(out, MAX_PACKET_BYTES as u32)?;
    write_u32(out, 101)
}

/// Appends the record of a packet with this time, in nanoseconds since 1970, and these bytes, as `write_capture` writes it and
/// under what it requires. Where memory runs out, nothing is said of what `out` holds; where it has room, none is asked for.
pub fn append_record(out: &mut Vec<u8>, time: u64, bytes: &[u8]) -> Result<(), NoMemory>
    requires { FitsCapture (record_with time bytes.now) }
    ensures spelling { OnOk result (out.new.items ≡ out.old.items ++ record_bytes (record_with time bytes.now)) }
    ensures succeeds { vec_len out.old + 16 + length bytes.now ≤ vec_capacity out.old → IsOk result }
    ensures capacity { vec_capacity out.old ≤ vec_capacity out.new }
{
    write_u32(out, (time / 1_000_000_000) as u32)?;
    write_u32(out, (time % 1_000_000_000) as u32)?;
    write_u32(out, bytes.len() as u32)?;
    write_u32(out, bytes.len() as u32)?;
    out.extend_from_slice(bytes)?;
    Ok(())
}

fn write_u32(out: &mut Vec<u8>, number: u32) -> Result<(), NoMemory>
    ensures spelling { OnOk result (out.new.items ≡ out.old.items ++ little_bytes 4 number) }
    ensures len { OnOk result (vec_len out.new ≡ vec_len out.old + 4) }
    ensures succeeds { vec_len out.old + 4 ≤ vec_capacity out.old → IsOk result }
    ensures capacity { vec_capacity out.old ≤ vec_capacity out.new }
{
    out.extend_from_slice(&number.to_le_bytes())?;
    Ok(())
}
