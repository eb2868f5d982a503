// The greatest number of each thing that a line tells, and the name of what a run or an answer has.
ghost use Rattle.std.specs.Prelude.{◌≡◌};
ghost use Rattle.npf_ctl_messages.specs.Message.{most_excess, most_of, quantity_name};

use crate::fault::Quantity;
use npf_faults::Excess;
use npf_types::limits::{
    MAX_BYTES_OF_CAPTURES, MAX_CAPTURES, MAX_CHANGES, MAX_INSTRUCTIONS, MAX_INTERFACES,
    MAX_LIST_ELEMENTS, MAX_MAPS, MAX_PACKETS, MAX_PHASES, MAX_PROCEDURES, MAX_RULE_WEIGHT,
    MAX_RULES, MAX_TABLE_ENTRIES, MAX_TABLES,
};

/// Pairs of rules and of maps that a comparison of two configurations tells.
pub const MAX_PAIRS: usize = 65_536;

/// Packets of an answer that are written to files.
pub const MAX_WITNESSES: usize = 256;

/// Packets of a run that follow an expiry at a multiple of a period.
pub const MAX_TICKS: usize = 16_384;

// The most that a configuration may have of it.
pub(crate) fn most_excess(excess: Excess) -> u64
    ensures { result ≡ most_excess excess }
{
    let most = match excess {
        Excess::Rules => MAX_RULES,
        Excess::Tables => MAX_TABLES,
        Excess::Maps => MAX_MAPS,
        Excess::Procedures => MAX_PROCEDURES,
        Excess::Elements => MAX_LIST_ELEMENTS,
        Excess::Entries => MAX_TABLE_ENTRIES,
        Excess::Weight => MAX_RULE_WEIGHT,
        Excess::Instructions => MAX_INSTRUCTIONS,
    };
    most as u64
}

// The most that a run or an answer may have of it.
pub(crate) fn most_of(what: Quantity) -> u64
    ensures { result ≡ most_of what }
{
    let most = match what {
        Quantity::Captures => MAX_CAPTURES,
        Quantity::Phases => MAX_PHASES,
        Quantity::Changes => MAX_CHANGES,
        Quantity::Interfaces => MAX_INTERFACES,
        Quantity::CaptureBytes => MAX_BYTES_OF_CAPTURES,
        Quantity::Packets => MAX_PACKETS,
        Quantity::Pairs => MAX_PAIRS,
        Quantity::Witnesses => MAX_WITNESSES,
        Quantity::Expiries => MAX_TICKS,
    };
    most as u64
}

pub(crate) fn quantity_name(what: Quantity) -> &'static str
    ensures { result.now ≡ quantity_name what }
{
    match what {
        Quantity::Captures => "captures",
        Quantity::Phases => "phases",
        Quantity::Changes => "changes",
        Quantity::Interfaces => "interfaces",
        Quantity::CaptureBytes => "capture-bytes",
        Quantity::Packets => "packets",
        Quantity::Pairs => "pairs",
        Quantity::Witnesses => "witnesses",
        Quantity::Expiries => "expiries",
    }
}
