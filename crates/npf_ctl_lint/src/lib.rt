// What `npfctl lint` tells of a configuration: a line for each rule that decides on no packet, with why, and for each without which every packet would be
// treated alike, with what would answer in its place; for each group that no packet comes to; for each table that nothing uses, or that is used and has no
// address; for each procedure that no rule calls; and how many rules there are and how many of each kind.
//
// The contract (specs/LintText): the findings are those of the configuration (npf_lint, npf_dead_groups, npf_unused), the text is theirs, and something was
// found exactly where a rule is dead or redundant, a group dead, a table empty or unused, or a procedure unused. All searches share their steps.
#![tactic(auto)]

mod answer;
mod group_line;
mod line;
mod loaded;
mod procedure_line;
mod rule_line;
mod search;
mod table_line;
mod text;

pub use answer::{LintAnswer, lint_text};
pub use loaded::lint_loaded;
pub use search::LintFindings;
