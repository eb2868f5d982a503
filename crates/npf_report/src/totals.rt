// The total line.
ghost use Rattle.std.specs.Prelude.{◌≡◌, ◌≤◌, ◌++◌, List, [], length, drop, IfOk};
ghost use Rattle.npf_engine.specs.declared.outcome.Outcome.{Outcome as OutcomeType};
ghost use Rattle.npf_report.specs.TotalText.{total_text, CountsOutcomes, AddsOutcome, MayCount, is_blocked, is_dropped, is_skipped, is_malformed};

use crate::lines::LINE_ROOM;
use crate::page::{write_counted, write_text};
use npf_engine::Outcome;
use npf_types::{Decision, NoMemory};
use std::alloc::Global;

/// The last line of a report, with its line feed: how many packets there were, and how many had each kind of outcome.
pub fn total(alloc: Global, outcomes: &[Outcome]) -> Result<Vec<u8>, NoMemory>
    ensures { IfOk result (λ line. line.items ≡ total_text outcomes.now) }
{
    let mut page = [0; LINE_ROOM];
    let start = write_total(&mut page, LINE_ROOM, &Counts::of(outcomes));
    Ok(Vec::from_slice(alloc, &page[start..])?)
}

/// Writes the line of these counts in front of a place of a page, and answers where it begins. What stands in front of it may
/// change.
pub fn write_total(page: &mut [u8], end: usize, counts: &Counts) -> usize
    requires room { 192 ≤ end }
    requires within { end ≤ length page.old }
    ensures order { result ≤ end }
    ensures line { (outcomes : List OutcomeType) → CountsOutcomes outcomes counts.now
        → drop result page.new ≡ total_text outcomes ++ drop end page.old }
{
    let feed = write_text(page, end, "\n");
    let malformed = write_counted(page, feed, " malformed ", counts.malformed);
    let skipped = write_counted(page, malformed, " skip ", counts.skipped);
    let dropped = write_counted(page, skipped, " drop ", counts.dropped);
    let blocked = write_counted(page, dropped, " block ", counts.blocked);
    let passed = write_counted(page, blocked, " pass ", counts.passed);
    write_counted(page, passed, "packets ", counts.packets)
}

/// How many packets there were, and how many had each kind of outcome.
#[derive(Clone, Copy)]
pub struct Counts {
    packets: u64,
    passed: u64,
    blocked: u64,
    dropped: u64,
    skipped: u64,
    malformed: u64,
}

impl Counts {
    /// No packets.
    pub fn new() -> Counts
        ensures { CountsOutcomes [] result }
    {
        Counts {
            packets: 0,
            passed: 0,
            blocked: 0,
            dropped: 0,
            skipped: 0,
            malformed: 0,
        }
    }

    /// Counts one packet more. No count may stand at its greatest value.
    #[inline(always)]
    pub fn add(&mut self, outcome: &Outcome)
        requires { MayCount self.old }
        ensures { AddsOutcome outcome.now self.old self.new }
    {
        self.packets += 1;
        self.passed += u64::from(outcome.passes());
        self.blocked += u64::from(is_blocked(outcome));
        self.dropped += u64::from(is_dropped(outcome));
        self.skipped += u64::from(is_skipped(outcome));
        self.malformed += u64::from(is_malformed(outcome));
    }

    fn of(outcomes: &[Outcome]) -> Counts
        ensures { CountsOutcomes outcomes.now result }
    {
        let mut counts = Counts::new();
        for outcome in outcomes {
            counts.add(outcome);
        }
        counts
    }
}

fn is_blocked(outcome: &Outcome) -> bool
    ensures { result ≡ is_blocked outcome.now }
{
    match *outcome {
        Outcome::ByConn { pass, .. } => !pass,
        Outcome::ByRule { decision, .. } => decision != Decision::Pass,
        _ => false,
    }
}

fn is_dropped(outcome: &Outcome) -> bool
    ensures { result ≡ is_dropped outcome.now }
{
    matches!(outcome, Outcome::Dropped { .. })
}

fn is_skipped(outcome: &Outcome) -> bool
    ensures { result ≡ is_skipped outcome.now }
{
    matches!(outcome, Outcome::Skip | Outcome::Fragment { .. })
}

fn is_malformed(outcome: &Outcome) -> bool
    ensures { result ≡ is_malformed outcome.now }
{
    matches!(outcome, Outcome::Malformed { .. })
}
