// What the second file of a run is.
ghost use Rattle.std.specs.Prelude.{◌≤◌, ◌↔◌, length, IfOk, IsTrue};
ghost use Rattle.npf_ctl_input.specs.Rules.{HasShortRules};
ghost use Rattle.npf_ctl_input.specs.Source.{BeginsAsCapture, ReadsEither, ReadsSource};
ghost use Rattle.npf_ctl_input.specs.Unless.{UnlessMemory};
ghost use Rattle.npf_ctl_input.specs.View.{source_view};

use crate::file::text_of;
use crate::tap::NamedTap;
use npf_ctl_messages::{CommandFault, LineFault};
use npf_ctl_script::{Script, ScriptFault, read_script};
use npf_fields::get32;
use npf_pcap::Format;
use npf_types::limits::{MAX_CAPTURE_BYTES, MAX_TEXT_BYTES};
use std::alloc::Global;

/// What a run plays: the second of its files.
#[derive(Debug, Drop)]
pub enum RunSource {
    /// The bytes of a capture, which stands for a script that names it.
    Alone(Vec<u8>),
    /// The commands of a script.
    Scripted(Script),
}

/// What these bytes of this file are: a capture's where a tap is told, or where they begin as a capture, and otherwise a script's. Refused where they
/// are no capture's and longer than a text may be (`Long`), or for the script's first bad line; or for want of memory.
pub fn read_source(
    alloc: Global,
    tap: Option<NamedTap>,
    file: &str,
    bytes: Vec<u8>,
) -> Result<RunSource, CommandFault>
    requires { length bytes.items ≤ MAX_CAPTURE_BYTES }
    ensures comes { UnlessMemory source_view result (ReadsSource tap file.now bytes.items) }
    ensures short { IfOk result (λ source. HasShortRules (source_view source)) }
{
    match tap {
        Some(_) => Ok(RunSource::Alone(bytes)),
        None => read_either(alloc, file, bytes),
    }
}

// What the bytes are by themselves.
fn read_either(alloc: Global, file: &str, bytes: Vec<u8>) -> Result<RunSource, CommandFault>
    requires { length bytes.items ≤ MAX_CAPTURE_BYTES }
    ensures comes { UnlessMemory source_view result (ReadsEither file.now bytes.items) }
    ensures short { IfOk result (λ source. HasShortRules (source_view source)) }
{
    if begins_as_capture(bytes.as_slice()) {
        return Ok(RunSource::Alone(bytes));
    }
    if bytes.len() > MAX_TEXT_BYTES {
        return Err(CommandFault::Long {
            file: text_of(alloc, file)?,
            most: MAX_TEXT_BYTES as u64,
        });
    }
    match read_script(alloc, bytes.as_slice()) {
        Ok(script) => Ok(RunSource::Scripted(script)),
        Err(ScriptFault::BadLine { line }) => Err(CommandFault::Line {
            script: text_of(alloc, file)?,
            line,
            fault: LineFault::BadLine,
        }),
        Err(ScriptFault::NoMemory) => Err(CommandFault::NoMemory),
    }
}

fn begins_as_capture(bytes: &[u8]) -> bool
    ensures { IsTrue result ↔ BeginsAsCapture bytes.now }
{
    bytes.len() >= 4 && Format::of_magic(get32(bytes, 0)).is_some()
}
