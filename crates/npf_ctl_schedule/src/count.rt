// How many lines of a script are of one kind.
ghost use Rattle.std.specs.Prelude.{◌≡◌};
ghost use Rattle.npf_ctl_schedule.specs.Schedule.{begins_phase, captures_in, changes_in, makes_change, names_capture, phases_in, unnumbered};

use npf_ctl_script::ScriptLine;

/// How many lines name a capture.
pub fn captures_in(lines: &[(u32, ScriptLine)]) -> u64
    ensures { result ≡ captures_in (unnumbered lines.now) }
{
    lines.iter().filter(|line| names_capture(&line.1)).count() as u64
}

/// How many lines begin a phase.
pub fn phases_in(lines: &[(u32, ScriptLine)]) -> u64
    ensures { result ≡ phases_in (unnumbered lines.now) }
{
    lines.iter().filter(|line| begins_phase(&line.1)).count() as u64
}

/// How many lines make the next configuration.
pub fn changes_in(lines: &[(u32, ScriptLine)]) -> u64
    ensures { result ≡ changes_in (unnumbered lines.now) }
{
    lines.iter().filter(|line| makes_change(&line.1)).count() as u64
}

fn names_capture(line: &ScriptLine) -> bool
    ensures { result ≡ names_capture line.now }
{
    matches!(line, ScriptLine::Capture { .. })
}

/// Whether the line begins a phase.
pub(crate) fn begins_phase(line: &ScriptLine) -> bool
    ensures { result ≡ begins_phase line.now }
{
    matches!(line, ScriptLine::Phase)
}

/// Whether the line makes the next configuration.
pub(crate) fn makes_change(line: &ScriptLine) -> bool
    ensures { result ≡ makes_change line.now }
{
    match line {
        ScriptLine::Reload { .. } => true,
        ScriptLine::RuleAdd { .. } | ScriptLine::RuleRem { .. } | ScriptLine::RuleFlush { .. } =>
            true,
        ScriptLine::TableAdd { .. } | ScriptLine::TableRem { .. } => true,
        _ => false,
    }
}
