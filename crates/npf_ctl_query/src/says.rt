// What is said of a class as a whole.
ghost use Rattle.std.specs.Prelude.{◌≡◌, ◌<◌, ◌&&◌, ◌||◌, not, Some, length};
ghost use Rattle.npf_model.specs.declared.rule.Rule.{Rule};
ghost use Rattle.npf_model.specs.Verdict.{all_rules};
ghost use Rattle.npf_ruleset.specs.Configuration.{configuration};
ghost use Rattle.npf_judge.specs.Deciders.{IsClassAnswer};
ghost use Rattle.npf_judge.specs.Says.{ClassIs, place_passes};
ghost use Rattle.npf_ctl_query.specs.QueryText.{HasRules};
ghost use Rattle.npf_ctl_query.specs.Seen.{says_by, some_blocks, some_passes};

use npf_judge::{ClassSays, Deciders};
use npf_ruleset::Config;
use npf_types::Decision;

/// What the configuration does to a class that has this answer.
pub(crate) fn says_of(config: &Config, answer: &Deciders) -> ClassSays
    requires { HasRules config.now answer.now }
    ensures { (class : Rule) → IsClassAnswer (configuration config.now) class answer.now → ClassIs (configuration config.now) class result }
{
    let (passed, blocked) = seen(config, answer);
    says_by(passed, blocked, answer.none.is_some())
}

// What is said where some rule passes a packet or not, some rule blocks one or not, and none decides on one or not.
fn says_by(passed: bool, blocked: bool, undecided: bool) -> ClassSays
    ensures { result ≡ says_by passed (blocked || undecided) }
{
    match (passed, blocked || undecided) {
        (true, false) => ClassSays::Pass,
        (false, true) => ClassSays::Block,
        (true, true) => ClassSays::Both,
        (false, false) => ClassSays::Empty,
    }
}

// Whether some rule passes a packet, and whether some rule blocks one.
fn seen(config: &Config, answer: &Deciders) -> (bool, bool)
    requires { HasRules config.now answer.now }
    ensures { result ≡ (some_passes config.now.model answer.now.rules.items (length answer.now.rules.items), some_blocks config.now.model answer.now.rules.items (length answer.now.rules.items)) }
{
    let mut passed = false;
    let mut blocked = false;
    for place in 0..answer.rules.len() {
        let found = answer.rule(place).is_some();
        let passes = place_passes(config, place);
        passed = passes_too(passed, found, passes);
        blocked = blocks_too(blocked, found, passes);
    }
    (passed, blocked)
}

// Whether a rule passed a packet before, or this one passes what was found for it.
fn passes_too(before: bool, found: bool, passes: bool) -> bool
    ensures { result ≡ (before || (found && passes)) }
{
    before || found && passes
}

fn blocks_too(before: bool, found: bool, passes: bool) -> bool
    ensures { result ≡ (before || (found && not passes)) }
{
    before || found && !passes
}

// Whether the rule at a place, which must be in range, passes what it decides on.
fn place_passes(config: &Config, place: usize) -> bool
    requires { place < length (all_rules config.now.model.groups) }
    ensures { result ≡ place_passes config.now.model (Some place) }
{
    matches!(config.rule(place as u32).decision, Decision::Pass)
}
