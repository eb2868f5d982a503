// What a run is to do.
ghost use Rattle.std.specs.Prelude.{◌≡◌, ◌≤◌, [], All, IfOk, IfSome, length};
ghost use Rattle.npf_ctl_input.specs.Rules.{AddsShortRule};
ghost use Rattle.npf_ctl_input.specs.Source.{Alone, ReadsSource, lines_of_source, tap_of_capture};
ghost use Rattle.npf_ctl_input.specs.Unless.{UnlessMemory};
ghost use Rattle.npf_ctl_prepare.specs.Known.{NamesTextFile};
ghost use Rattle.npf_ctl_prepare.specs.View.{source_ordered};

use crate::prepare::RunFiles;
use npf_ctl_input::{NamedTap, RunSource, read_source};
use npf_ctl_messages::CommandFault;
use npf_ctl_script::{Script, ScriptLine};
use npf_types::limits::MAX_CAPTURE_BYTES;
use npf_types::{List, NoMemory};
use std::alloc::Global;

/// The lines of a script, or the line that a capture alone stands for with the bytes of that capture; and where it was recorded, and when
/// connections expire, as told.
#[derive(Drop)]
pub(crate) struct Orders {
    pub(crate) lines: List<(u32, ScriptLine)>,
    pub(crate) alone: Option<Vec<u8>>,
    pub(crate) tap: Option<NamedTap>,
    pub(crate) every: Option<u32>,
}

/// What a run's second file orders, whose bytes these are.
pub(crate) fn read_orders(
    alloc: Global,
    names: RunFiles<'_>,
    bytes: Vec<u8>,
) -> Result<Orders, CommandFault>
    requires { length bytes.items ≤ MAX_CAPTURE_BYTES }
    ensures comes { UnlessMemory source_ordered result (ReadsSource names.entry.tap names.entry.script.now bytes.items) }
    ensures tap { IfOk result (λ orders. orders.tap ≡ names.entry.tap) }
    ensures every { IfOk result (λ orders. orders.every ≡ names.entry.every) }
    ensures lines { IfOk result (λ orders. orders.lines ≡ lines_of_source orders.tap names.entry.script.now (source_ordered orders)) }
    ensures text { IfOk result (λ orders. All (λ line. NamesTextFile line.1) orders.lines) }
    ensures rules { IfOk result (λ orders. All (λ line. AddsShortRule line.1) orders.lines) }
    ensures fits { IfOk result (λ orders. IfSome orders.alone (λ bytes. length bytes.items ≤ MAX_CAPTURE_BYTES)) }
{
    let RunFiles { tap, every, .. } = names;
    match read_source(alloc, tap, names.script, bytes)? {
        RunSource::Alone(bytes) => Ok(Orders {
            lines: List::of_vec(line_of_capture(alloc, tap, names.script)?),
            alone: Some(bytes),
            tap,
            every,
        }),
        RunSource::Scripted(Script { lines }) => Ok(Orders {
            lines,
            alone: None,
            tap,
            every,
        }),
    }
}

/// The line that a capture alone stands for, which has this name.
fn line_of_capture(
    alloc: Global,
    tap: Option<NamedTap>,
    file: &str,
) -> Result<Vec<(u32, ScriptLine)>, NoMemory>
    ensures value { IfOk result (λ lines. lines.items ≡ lines_of_source tap file.now (Alone [])) }
    ensures text { IfOk result (λ lines. All (λ line. NamesTextFile line.1) lines.items) }
{
    let NamedTap { name, dir } = tap_of_capture(tap);
    let file = List::of_vec(Vec::from_slice(alloc, file.as_bytes())?);
    let mut lines = Vec::new(alloc);
    lines.push((1, ScriptLine::Capture { name, dir, file }))?;
    Ok(lines)
}

/// Where a capture alone was recorded.
fn tap_of_capture(tap: Option<NamedTap>) -> NamedTap
    ensures { result ≡ tap_of_capture tap }
{
    match tap {
        Some(tap) => tap,
        None => NamedTap::first(),
    }
}
