// The lines of rules that do nothing, and the line that counts them.
ghost use Rattle.std.specs.Prelude.{◌≡◌, ◌<◌, ◌||◌, ◌++◌, OnOk, nat_lt};
ghost use Rattle.npf_ctl_lint.specs.RuleLine.{rule_counts_line, lint_count, finding_line, finding_lines, lint_of, none_words, places_text, redundant_line, some_idle_rule};

use npf_ctl_query::write_ordinal;
use npf_lint::{Replacement, RuleFinding};
use npf_text::{write_counted, write_text};
use npf_types::NoMemory;

/// What may be found of a rule.
#[derive(Clone, Copy, Debug, PartialEq, Eq)]
pub(crate) enum Lint {
    /// It decides on no packet.
    Dead,
    /// It decides on some, and without it other rules would do the same with each.
    Redundant,
}

/// Whether some rule is dead or redundant.
pub(crate) fn some_idle_rule(findings: &[RuleFinding]) -> bool
    ensures { result ≡ some_idle_rule findings.now }
{
    lint_count(findings, Lint::Dead) > 0 || lint_count(findings, Lint::Redundant) > 0
}

/// Appends how many rules there are and how many of each kind.
pub(crate) fn write_counts(into: &mut Vec<u8>, findings: &[RuleFinding]) -> Result<(), NoMemory>
    ensures { OnOk result (into.new.items ≡ into.old.items ++ rule_counts_line findings.now) }
{
    write_counted(into, "rules ", findings.len() as u64)?;
    write_counted(into, " dead ", lint_count(findings, Lint::Dead))?;
    write_counted(into, " redundant ", lint_count(findings, Lint::Redundant))?;
    write_text(into, "\n")?;
    Ok(())
}

/// How many of the rules are so.
fn lint_count(findings: &[RuleFinding], lint: Lint) -> u64
    ensures { result ≡ lint_count lint findings.now }
{
    let mut count = 0;
    for finding in findings {
        if lint_of(finding) == Some(lint) {
            count += 1;
        }
    }
    count
}

/// What is found of a rule, if it is worth a look. What no rule would answer is blocked, so one that blocks it says what holds without it.
fn lint_of(finding: &RuleFinding) -> Option<Lint>
    ensures { result ≡ lint_of finding.now }
{
    match finding {
        RuleFinding::Reached(_) => None,
        RuleFinding::Redundant(replacement) if replacement.others.is_empty() => None,
        RuleFinding::Redundant(_) => Some(Lint::Redundant),
        RuleFinding::Impossible | RuleFinding::Covered(_) => Some(Lint::Dead),
    }
}

/// Appends the lines of all rules.
pub(crate) fn write_rules(into: &mut Vec<u8>, findings: &[RuleFinding]) -> Result<(), NoMemory>
    ensures { OnOk result (into.new.items ≡ into.old.items ++ finding_lines 0 findings.now) }
{
    for (place, finding) in findings.iter().enumerate() {
        write_finding(into, place, finding)?;
    }
    Ok(())
}

// Appends the line of the rule at a place, if something is told of it.
fn write_finding(into: &mut Vec<u8>, place: usize, finding: &RuleFinding) -> Result<(), NoMemory>
    ensures { OnOk result (into.new.items ≡ into.old.items ++ finding_line place finding.now) }
{
    match finding {
        RuleFinding::Reached(_) => Ok(()),
        RuleFinding::Redundant(replacement) => write_redundant(into, place, replacement),
        RuleFinding::Impossible => {
            write_text(into, "rule ")?;
            write_ordinal(into, place)?;
            write_text(into, " dead impossible\n")?;
            Ok(())
        }
        RuleFinding::Covered(others) => {
            write_text(into, "rule ")?;
            write_ordinal(into, place)?;
            write_text(into, " dead covered")?;
            write_places(into, others.as_slice())?;
            write_text(into, "\n")?;
            Ok(())
        }
    }
}

fn write_redundant(
    into: &mut Vec<u8>,
    place: usize,
    replacement: &Replacement,
) -> Result<(), NoMemory>
    ensures { OnOk result (into.new.items ≡ into.old.items ++ redundant_line place replacement.now) }
{
    write_text(into, "rule ")?;
    write_ordinal(into, place)?;
    write_text(into, " redundant by")?;
    write_places(into, replacement.others.as_slice())?;
    write_text(into, none_words(replacement.none))?;
    write_text(into, "\n")?;
    Ok(())
}

fn none_words(none: bool) -> &'static str
    ensures { result.now ≡ none_words none }
{
    if none { " none" } else { "" }
}

fn write_places(into: &mut Vec<u8>, places: &[usize]) -> Result<(), NoMemory>
    ensures { OnOk result (into.new.items ≡ into.old.items ++ places_text places.now) }
{
    for place in places {
        write_text(into, " ")?;
        write_ordinal(into, *place)?;
    }
    Ok(())
}
