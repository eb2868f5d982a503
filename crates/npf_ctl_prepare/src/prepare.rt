// All that a run needs, prepared before any packet is played.
ghost use Rattle.std.specs.Prelude.{◌≡◌, ◌≤◌, ◌<◌, All, IfOk, IfSome, OnOk, length};
ghost use Rattle.npf_outside.specs.Files.{FilesMoment, SameReadFaults};
ghost use Rattle.npf_ruleset.specs.Configuration.{configuration};
ghost use Rattle.npf_config.specs.Loaded.{HasNextIds, IsLoaded};
ghost use Rattle.npf_config.specs.Reading.{OnlyReads};
ghost use Rattle.npf_ctl_input.specs.Around.{Around};
ghost use Rattle.npf_ctl_input.specs.Rules.{AddsShortRule};
ghost use Rattle.npf_ctl_input.specs.Source.{lines_of_source};
ghost use Rattle.npf_ctl_input.specs.Unless.{UnlessMemory};
ghost use Rattle.npf_ctl_prepare.specs.Known.{NamesTextFile};
ghost use Rattle.npf_ctl_prepare.specs.Playable.{IsPlayable};
ghost use Rattle.npf_ctl_prepare.specs.Prepares.{PreparesRun, PreparesSource};
ghost use Rattle.npf_ctl_prepare.specs.View.{names_of, run_plan_of, source_ordered};
ghost use Rattle.npf_ctl_prepare.specs.Told.{IsChangeable};

use crate::captures::gather_captures;
use crate::configurations::make_configurations;
use crate::interfaces::numbered;
use crate::limits::keep_limits;
use crate::orders::{Orders, read_orders};
use crate::phases::run_phases;
use npf_ctl_arrivals::Captures;
use npf_ctl_input::{NamedTap, load_file, read_file, read_interfaces};
use npf_ctl_messages::CommandFault;
use npf_model::Ifaces;
use npf_outside::Files;
use npf_ruleset::Config;
use npf_traffic::{Packet, Phase};
use npf_types::limits::MAX_CAPTURE_BYTES;
use std::alloc::Global;

/// The files that a run names.
#[derive(Clone, Copy, Debug, PartialEq, Eq)]
pub struct RunFiles<'a> {
    /// The configuration.
    pub conf: &'a str,
    /// The script, or a capture alone.
    pub script: &'a str,
    /// The interfaces with their addresses.
    pub ifaces: Option<&'a str>,
    /// Where that capture was recorded; it is a script where this isn't told and its bytes don't begin as a capture's.
    pub tap: Option<NamedTap>,
    /// At multiples of how many seconds, at least 1, of the packets' times connections expire, if they do.
    pub every: Option<u32>,
}

/// A run that can be played.
#[derive(Drop)]
pub struct Prepared<'a> {
    /// The given interfaces, and behind them those that only captures name.
    pub ifaces: Ifaces,
    /// The first configuration, and behind it one for each change of the script, by their numbers from 0.
    pub configs: Vec<Config>,
    /// The packets of all captures, by time.
    pub packets: Vec<Packet<'a>>,
    /// The phases, which have all packets and publish all changes.
    pub phases: Vec<Phase>,
}

/// Prepares the run that these files tell, in this order: the interfaces and the configuration are read, and the script; its captures,
/// phases, changes and interfaces are counted; the packets of its captures are read, one capture after another; the configurations are
/// made that its lines reload or change; and expiries are counted. The first fault ends it. The files are only read. The packets stand in the bytes of the captures,
/// which are put where the caller names, in place of what was there.
pub fn prepare_run<'a, F: Files>(
    alloc: Global,
    names: RunFiles<'_>,
    files: &mut F,
    captures: &'a mut Captures,
) -> Result<Prepared<'a>, CommandFault>
    requires { IfSome names.every (λ seconds. 0 < seconds) }
    ensures comes { (before after : FilesMoment) → Around before (F.moment files.old) (F.moment files.new) after
        → UnlessMemory run_plan_of result (PreparesRun before after (names_of names.entry)) }
    ensures playable { IfOk result IsPlayable }
    ensures reads { OnlyReads (F.moment files.old) (F.moment files.new) }
    ensures faultless { OnOk result (SameReadFaults (F.moment files.old) (F.moment files.new)) }
{
    let given = read_interfaces(alloc, names.ifaces, files)?;
    let first = load_file(alloc, &given, names.conf, files)?;
    let bytes = read_file(alloc, names.script, MAX_CAPTURE_BYTES as u64, files)?;
    let orders = read_orders(alloc, names, bytes)?;
    prepare_orders(alloc, names.script, given, first, orders, files, captures)
}

/// Prepares the run with these orders, whose script has this name.
fn prepare_orders<'a, F: Files>(
    alloc: Global,
    script: &str,
    given: Ifaces,
    first: Config,
    orders: Orders,
    files: &mut F,
    captures: &'a mut Captures,
) -> Result<Prepared<'a>, CommandFault>
    requires first { IsChangeable 1 first }
    requires period { IfSome orders.every (λ seconds. 0 < seconds) }
    requires lines { orders.lines ≡ lines_of_source orders.tap script.now (source_ordered orders) }
    requires text { All (λ line. NamesTextFile line.1) orders.lines }
    requires rules { All (λ line. AddsShortRule line.1) orders.lines }
    requires fits { IfSome orders.alone (λ bytes. length bytes.items ≤ MAX_CAPTURE_BYTES) }
    ensures comes { (before after : FilesMoment) → Around before (F.moment files.old) (F.moment files.new) after
        → UnlessMemory run_plan_of result (PreparesSource before after orders.tap orders.every script.now given.list (configuration first) (source_ordered orders)) }
    ensures playable { IfOk result IsPlayable }
    ensures reads { OnlyReads (F.moment files.old) (F.moment files.new) }
    ensures faultless { OnOk result (SameReadFaults (F.moment files.old) (F.moment files.new)) }
{
    let Orders {
        lines,
        alone,
        every,
        ..
    } = orders;
    let lines = lines.as_slice();
    let ifaces = keep_limits(alloc, given, lines)?;
    let arrivals = gather_captures(alloc, alone, &ifaces, lines, files)?;
    let first = numbered(first, &ifaces);
    let configs = make_configurations(alloc, &ifaces, script, lines, first, files)?;
    let packets = arrivals.by_time(alloc, captures)?;
    let phases = run_phases(alloc, every, lines, packets.as_slice())?;
    Ok(Prepared {
        ifaces,
        configs,
        packets,
        phases,
    })
}
