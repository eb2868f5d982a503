// What a configuration does to a packet, told without the numbers and the names of what does it, so that two configurations can be held
// against each other.
//
// The contract: `rule_effect` and `map_effect` equal the definitions of specs/Treatment, by which the treatment of a packet is what the
// rule that decides does and, where that passes it, what the map that applies writes. `npf_treatment_law` has what that is for: what the
// engine makes of a packet is told by its treatment and the settings. `is_same` says whether what two rules do is the same.
#![tactic(auto)]

mod map;
mod rule;
mod same;

pub use map::{AddressEffect, MapEffect, PortEffect, map_effect};
pub use rule::{NO_RULE, RuleEffect, rule_effect};
pub use same::is_same;
