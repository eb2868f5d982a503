// What the words of a line expect.
ghost use Rattle.std.specs.Prelude.{◌≡◌, ◌≢◌, ◌↔◌, ℕ, List, IsTrue, MatchOption, codes};
ghost use Rattle.npf_ctl_check.specs.declared.expectation.WantedDecision.{WantedDecision as WantedType};
ghost use Rattle.npf_ctl_check.specs.Reading.{AsksFor, Expects, ExpectsNothing, Wants, wanted_word};

use crate::expectation::{Amount, WantedDecision};
use crate::words::split_word;
use npf_table::trim_start;

/// What a line expects of the class that stands behind its first words.
#[derive(Clone, Copy)]
pub(crate) struct LineSaid<'a> {
    pub amount: Amount,
    pub wanted: WantedDecision,
    pub class: &'a [u8],
}

/// What the line expects, None where its beginning is none that a line may have.
pub(crate) fn said_by(line: &[u8]) -> Option<LineSaid<'_>>
    ensures { MatchOption result (ExpectsNothing line.now) (λ said. Expects line.now said.amount said.wanted said.class.now) }
{
    let (amount, text) = amount_in(line);
    let Some((wanted, class)) = wants(text) else {
        return None;
    };
    Some(LineSaid {
        amount,
        wanted,
        class,
    })
}

/// How many packets the line asks for, and what stands behind that.
fn amount_in(line: &[u8]) -> (Amount, &[u8])
    ensures { AsksFor line.now result.0 result.1.now }
{
    let (word, behind) = split_word(line);
    if is_some_word(word) {
        (Amount::One, behind)
    } else {
        (Amount::Each, line)
    }
}

fn is_some_word(word: &[u8]) -> bool
    ensures { IsTrue result ↔ (word.now ≡ codes "some") }
{
    matches!(word, b"some")
}

/// How packets are to be treated by the text's first word, and the text of their class.
fn wants(text: &[u8]) -> Option<(WantedDecision, &[u8])>
    ensures { MatchOption result ((wanted : WantedType) (class : List ℕ) → ¬ Wants text.now wanted class) (λ found. Wants text.now found.0 found.1.now) }
{
    let (word, behind) = split_word(text);
    let Some(wanted) = wanted_by(word) else {
        return None;
    };
    Some((wanted, trim_start(behind)))
}

fn wanted_by(word: &[u8]) -> Option<WantedDecision>
    ensures { MatchOption result ((wanted : WantedType) → word.now ≢ wanted_word wanted) (λ wanted. word.now ≡ wanted_word wanted) }
{
    match word {
        b"pass" => Some(WantedDecision::Pass),
        b"block" => Some(WantedDecision::Block),
        _ => None,
    }
}
