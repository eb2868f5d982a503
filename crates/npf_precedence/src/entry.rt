// A rule of a configuration with all that it is bound to.
use npf_model::{OnIf, Rule};
use npf_types::Dir;

/// A rule, with its place, counted from 0 in the order of inspection; with the direction and the interface that its group is bound to, and
/// with those that its ruleset is bound to, which are None of a rule that is in none.
#[derive(Clone, Copy)]
pub struct RuleEntry<'a> {
    pub place: usize,
    pub group_dir: Option<Dir>,
    pub group_on: Option<OnIf>,
    pub within_dir: Option<Dir>,
    pub within_on: Option<OnIf>,
    pub rule: &'a Rule,
}
