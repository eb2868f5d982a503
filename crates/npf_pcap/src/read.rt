// A capture's header, and then its records from the front.
//
// Records are described from the front by their sizes, and not by splits that exist: then no bytes are two captures, and each law is one
// induction.
ghost use Rattle.std.specs.Prelude.{◌≡◌, ◌≢◌, ◌+◌, ◌≤◌, ◌<◌, ◌↔◌, ◌⊎◌, List as Seq, length, drop, IsTrue, IfOk, IfErr, IfSome, IfNone, MatchResult, IsErrAnd, All};
ghost use Rattle.npf_types.specs.declared.link.Link.{Link as LinkType};
ghost use Rattle.npf_pcap.specs.declared.capture.Record.{Record as RecordType};
ghost use Rattle.npf_pcap.specs.declared.fault.CaptureFault.{CaptureFault as FaultType};
ghost use Rattle.npf_pcap.specs.Capture.{IsCapture, HasCaptureFault, HasHeader, HasVersion};
ghost use Rattle.npf_pcap.specs.Extent.{record_at, records_at, EndsWithin, IsShort, IsTimely, StandApart};
ghost use Rattle.npf_pcap.specs.Format.{link_number};
ghost use Rattle.npf_pcap.specs.Record.{AreRecords, Spells, record_len, time_of as time_said, HasRecord};
ghost use Rattle.npf_pcap.specs.Reading.{HasRecordFault, FailsRecord};
ghost use Rattle.npf_pcap.specs.Spelling.{IsCaptureTime};

use crate::capture::{Capture, Record};
use crate::extent::{Extent, Extents};
use crate::fault::CaptureFault;
use crate::format::Format;
use npf_fields::get32;
use npf_types::limits::{MAX_CAPTURE_BYTES, MAX_PACKET_BYTES};
use npf_types::{Link, List};
use std::alloc::Global;

// The sizes of a file's header and of a record's.
const HEADER_LEN: usize = 24;

const RECORD_HEADER_LEN: usize = 16;

const LINKTYPE_ETHERNET: u32 = 1;

const LINKTYPE_RAW: u32 = 101;

/// Reads a capture, whose bytes must be at most `MAX_CAPTURE_BYTES`. The answer is the capture, or the first test that the
/// bytes fail: those of the header in the order of `CaptureFault`, and then each record's. Of a record whose header is
/// whole, `LongRecord` is tested before `CutRecord`. Zone, accuracy, snap length and a packet's own length aren't used.
pub fn read_capture(alloc: Global, bytes: &[u8]) -> Result<Capture, CaptureFault>
    requires { length bytes.now ≤ MAX_CAPTURE_BYTES }
    // What is read is spelled so.
    ensures read { IfOk result (λ c. IsCapture bytes.now c.link c.records) }
    // A fault is that of the first test that fails.
    ensures fault { IfErr result (λ e. HasCaptureFault bytes.now e) }

    // What is spelled so is read, and what has a fault is refused for it, unless memory runs out.
    ensures accepted { (link : LinkType) (records : Seq RecordType) → IsCapture bytes.now link records
        → MatchResult result (λ c. (c.link ≡ link) × (c.records ≡ records)) (λ e. e ≡ CaptureFault.NoMemory) }
    ensures refused { (e : FaultType) → HasCaptureFault bytes.now e → e ≢ CaptureFault.NoMemory
        → IsErrAnd result (λ f. (f ≡ e) ⊎ (f ≡ CaptureFault.NoMemory)) }
{
    read_all(alloc, bytes)
}

// What is read and refused, from which the two clauses more of `read_capture` follow by the laws of captures.
fn read_all(alloc: Global, bytes: &[u8]) -> Result<Capture, CaptureFault>
    requires { length bytes.now ≤ MAX_CAPTURE_BYTES }
    ensures read { IfOk result (λ c. IsCapture bytes.now c.link c.records) }
    ensures fault { IfErr result (λ e. HasCaptureFault bytes.now e) }
{
    let Extents { link, extents } = read_extents(alloc, bytes)?;
    let records = records_at(alloc, bytes, extents.as_slice())?;
    Ok(Capture { link, records })
}

/// Reads a capture as `read_capture` does, and tells where its packets are in place of copying them.
pub fn read_extents(alloc: Global, bytes: &[u8]) -> Result<Extents, CaptureFault>
    requires { length bytes.now ≤ MAX_CAPTURE_BYTES }
    ensures read { IfOk result (λ c. IsCapture bytes.now c.link (records_at bytes.now c.extents)) }
    ensures within { IfOk result (λ c. All (EndsWithin (length bytes.now)) c.extents) }
    ensures apart { IfOk result (λ c. StandApart 0 c.extents (length bytes.now)) }
    ensures short { IfOk result (λ c. All IsShort c.extents) }
    ensures timely { IfOk result (λ c. All IsTimely c.extents) }
    ensures fault { IfErr result (λ e. HasCaptureFault bytes.now e) }
{
    let (format, link) = read_header(bytes)?;
    let extents = extents_of(alloc, format, bytes)?;
    Ok(Extents { link, extents })
}

fn read_header(bytes: &[u8]) -> Result<(Format, Link), CaptureFault>
    ensures read { IfOk result (λ h. HasHeader h.0 h.1 bytes.now) }
    ensures fault { IfErr result (λ e. HasCaptureFault bytes.now e) }
{
    if bytes.len() < HEADER_LEN {
        return Err(CaptureFault::ShortHeader);
    }
    let Some(format) = Format::of_magic(get32(bytes, 0)) else {
        return Err(CaptureFault::BadMagic);
    };
    if !has_version(format, bytes) {
        return Err(CaptureFault::BadVersion);
    }
    let Some(link) = link_with(format.order.number32(bytes, 20)) else {
        return Err(CaptureFault::BadLink);
    };
    Ok((format, link))
}

fn has_version(format: Format, bytes: &[u8]) -> bool
    requires { 24 ≤ length bytes.now }
    ensures { IsTrue result ↔ HasVersion format bytes.now }
{
    format.order.number16(bytes, 4) == 2 && format.order.number16(bytes, 6) == 4
}

fn link_with(number: u32) -> Option<Link>
    ensures found { IfSome result (λ link. number ≡ link_number link) }
    ensures none { IfNone result ((link : LinkType) → number ≢ link_number link) }
{
    match number {
        LINKTYPE_ETHERNET => Some(Link::Ethernet),
        LINKTYPE_RAW => Some(Link::Raw),
        _ => None,
    }
}

// Where the records behind the file's header have their packets.
fn extents_of(alloc: Global, format: Format, bytes: &[u8]) -> Result<List<Extent>, CaptureFault>
    requires size { length bytes.now ≤ MAX_CAPTURE_BYTES }
    requires header { 24 ≤ length bytes.now }
    ensures read { IfOk result (λ extents. AreRecords format (drop 24 bytes.now) (records_at bytes.now extents)) }
    ensures within { IfOk result (λ extents. All (EndsWithin (length bytes.now)) extents) }
    ensures apart { IfOk result (λ extents. StandApart 0 extents (length bytes.now)) }
    ensures short { IfOk result (λ extents. All IsShort extents) }
    ensures timely { IfOk result (λ extents. All IsTimely extents) }
    ensures fault { IfErr result (λ e. HasRecordFault format (drop 24 bytes.now) e) }
{
    let mut extents = Vec::new(alloc);
    let mut at = HEADER_LEN;
    let mut number = 0;
    while at < bytes.len() {
        number += 1;
        let extent = extent_at(format, bytes, at, number)?;
        extents.push(extent)?;
        at = (extent.at + extent.len) as usize;
    }
    Ok(List::of_vec(extents))
}

// Where the record at this place, whose number is told, has its packet. The next record is behind the packet.
fn extent_at(format: Format, bytes: &[u8], at: usize, number: u32) -> Result<Extent, CaptureFault>
    requires size { length bytes.now ≤ MAX_CAPTURE_BYTES }
    requires inside { at < length bytes.now }
    ensures read { IfOk result (λ extent. Spells format (drop at bytes.now) (record_at bytes.now extent)) }
    ensures behind { IfOk result (λ extent. extent.at + extent.len ≡ at + record_len format (drop at bytes.now)) }
    ensures ahead { IfOk result (λ extent. at ≤ extent.at) }
    ensures within { IfOk result (λ extent. EndsWithin (length bytes.now) extent) }
    ensures short { IfOk result IsShort }
    ensures timely { IfOk result IsTimely }
    ensures fault { IfErr result (λ e. FailsRecord format number (drop at bytes.now) e) }
{
    let record = bytes.split_at(at).1;
    if record.len() < RECORD_HEADER_LEN {
        return Err(CaptureFault::CutRecord(number));
    }
    let stored_len = format.order.number32(record, 8) as usize;
    if stored_len > MAX_PACKET_BYTES {
        return Err(CaptureFault::LongRecord(number));
    }
    if record.len() - RECORD_HEADER_LEN < stored_len {
        return Err(CaptureFault::CutRecord(number));
    }
    Ok(Extent {
        time: time_of(format, record),
        at: (at + RECORD_HEADER_LEN) as u32,
        len: stored_len as u32,
    })
}

// The packets themselves, copied.
fn records_at(alloc: Global, bytes: &[u8], extents: &[Extent]) -> Result<List<Record>, CaptureFault>
    requires { All (EndsWithin (length bytes.now)) extents.now }
    ensures copied { IfOk result (λ records. records ≡ records_at bytes.now extents.now) }
    ensures memory { IfErr result (λ e. e ≡ CaptureFault.NoMemory) }
{
    let mut records = Vec::with_capacity(alloc, extents.len())?;
    for extent in extents {
        let stored = Vec::from_slice(alloc, extent.bytes_in(bytes))?;
        records.push(Record {
            time: extent.time,
            bytes: List::of_vec(stored),
        })?;
    }
    Ok(List::of_vec(records))
}

// The time of the first record.
fn time_of(format: Format, bytes: &[u8]) -> u64
    requires { HasRecord format bytes.now }
    ensures said { result ≡ time_said format bytes.now }
    ensures timely { IsCaptureTime result }
{
    let seconds = u64::from(format.order.number32(bytes, 0));
    let fraction = format.order.number32(bytes, 4);
    seconds * 1_000_000_000 + format.precision.nanoseconds(fraction)
}
