// The report, put line by line and then flushed.
ghost use Rattle.std.specs.Prelude.{◌≡◌, ◌≤◌, List, OnOk, IfErr, All, length, drop};
ghost use Rattle.npf_types.specs.Name.{name_bytes};
ghost use Rattle.npf_outside.specs.Sink.{Appends, AppendsFront};
ghost use Rattle.npf_model.specs.declared.iface.Iface.{Iface as IfaceType};
ghost use Rattle.npf_engine.specs.declared.outcome.Outcome.{Outcome as OutcomeType};
ghost use Rattle.npf_ctl_arrivals.specs.Within.{CrossesOneOf};
ghost use Rattle.npf_report.specs.LineText.{line_text};
ghost use Rattle.npf_report.specs.TotalText.{total_text, CountsOutcomes};
ghost use Rattle.npf_ctl_output.specs.Crossings.{AreCrossingsOf, IsCrossedBy};
ghost use Rattle.npf_ctl_output.specs.SinkText.{HasPutFault};
ghost use Rattle.npf_ctl_output.specs.Report.{report_text};

use crate::crossings::{Crossings, crossings_of};
use crate::sink_text::{flush, put, put_text};
use npf_ctl_messages::CommandFault;
use npf_engine::Outcome;
use npf_model::Ifaces;
use npf_outside::Sink;
use npf_report::{Counts, Crossed, LINE_ROOM, total, write_line, write_total};
use npf_runner::Packet;
use npf_types::Dir;
use std::alloc::Global;

/// Puts the report of the packets' outcomes, each line in one call, and flushes it. Each packet must have an outcome, and must have
/// crossed one of the interfaces. The fault is that of the output, or want of memory.
pub fn put_report<O: Sink>(
    alloc: Global,
    ifaces: &Ifaces,
    packets: &[Packet<'_>],
    outcomes: &[Outcome],
    out: &mut O,
) -> Result<(), CommandFault>
    requires count { length outcomes.now ≡ length packets.now }
    requires interfaces { All (CrossesOneOf (length ifaces.now.list)) packets.now }
    ensures whole { OnOk result
        (Appends (O.moment out.old).held (O.moment out.new).held (report_text ifaces.now.list packets.now outcomes.now)) }
    ensures flushed { OnOk result ((O.moment out.new).waiting ≡ 0) }
    ensures front { AppendsFront (O.moment out.old).held (O.moment out.new).held
        (report_text ifaces.now.list packets.now outcomes.now) }
    ensures fault { IfErr result (HasPutFault (O.moment out.old).faults (O.moment out.new).faults) }
{
    let crossings = crossings_of(alloc, ifaces)?;
    let mut page = [0; LINE_ROOM];
    let mut counts = Counts::new();
    for (place, packet) in packets.iter().enumerate() {
        let crossed = crossed_by(crossings.as_slice(), packet);
        let outcome = &outcomes[place];
        put_line(&mut page, place as u64 + 1, crossed, outcome, out)?;
        counts.add(outcome);
    }
    put_last(&mut page, &counts, out)?;
    flush(out)
}

/// Puts the total line of the outcomes alone, and flushes it. The fault is that of the output, or want of memory.
pub fn put_total<O: Sink>(
    alloc: Global,
    outcomes: &[Outcome],
    out: &mut O,
) -> Result<(), CommandFault>
    ensures whole { OnOk result (Appends (O.moment out.old).held (O.moment out.new).held (total_text outcomes.now)) }
    ensures flushed { OnOk result ((O.moment out.new).waiting ≡ 0) }
    ensures front { AppendsFront (O.moment out.old).held (O.moment out.new).held (total_text outcomes.now) }
    ensures fault { IfErr result (HasPutFault (O.moment out.old).faults (O.moment out.new).faults) }
{
    let text = total(alloc, outcomes)?;
    put_text(text.as_slice(), out)
}

// What the packet crossed, and in which direction.
fn crossed_by<'a>(crossings: &'a [Crossings], packet: &Packet<'_>) -> &'a Crossed
    requires { CrossesOneOf (length crossings.now) packet.now }
    ensures { (ifaces : List IfaceType) → AreCrossingsOf ifaces crossings.now → IsCrossedBy ifaces packet.now result.now }
{
    let of_interface = &crossings[usize::from(packet.ifid.0) - 1];
    match packet.dir {
        Dir::In => &of_interface.into,
        Dir::Out => &of_interface.out_of,
    }
}

// Puts the line of the packet of this number, written into the page.
fn put_line<O: Sink>(
    page: &mut [u8; LINE_ROOM],
    n: u64,
    crossed: &Crossed,
    outcome: &Outcome,
    out: &mut O,
) -> Result<(), CommandFault>
    ensures whole { OnOk result
        (Appends (O.moment out.old).held (O.moment out.new).held
        (line_text n (name_bytes crossed.now.name) crossed.now.dir outcome.now)) }
    ensures front { AppendsFront (O.moment out.old).held (O.moment out.new).held
        (line_text n (name_bytes crossed.now.name) crossed.now.dir outcome.now) }
    ensures fault { IfErr result (HasPutFault (O.moment out.old).faults (O.moment out.new).faults) }
    ensures counted { (O.moment out.old).faults ≤ (O.moment out.new).faults }
{
    let start = write_line(page, LINE_ROOM, n, crossed, outcome);
    put(line_at(page, start), out)
}

// Puts the total line, written into the page.
fn put_last<O: Sink>(
    page: &mut [u8; LINE_ROOM],
    counts: &Counts,
    out: &mut O,
) -> Result<(), CommandFault>
    ensures whole { OnOk result
        ((outcomes : List OutcomeType) → CountsOutcomes outcomes counts.now
        → Appends (O.moment out.old).held (O.moment out.new).held (total_text outcomes)) }
    ensures front { (outcomes : List OutcomeType) → CountsOutcomes outcomes counts.now
        → AppendsFront (O.moment out.old).held (O.moment out.new).held (total_text outcomes) }
    ensures fault { IfErr result (HasPutFault (O.moment out.old).faults (O.moment out.new).faults) }
    ensures counted { (O.moment out.old).faults ≤ (O.moment out.new).faults }
{
    let start = write_total(page, LINE_ROOM, counts);
    put(line_at(page, start), out)
}

// The line that begins at this place of the page, and ends where that ends.
fn line_at(page: &[u8; LINE_ROOM], start: usize) -> &[u8]
    requires { start ≤ 192 }
    ensures { result.now ≡ drop start page.now }
{
    &page[start..]
}
