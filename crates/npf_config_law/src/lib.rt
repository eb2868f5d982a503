// The law of loading: over told contents, of which no read fails, a text of npf.conf(5) is loaded in one way. The function does nothing: it is
// a theorem about the relations that `load` of npf_config answers, which may be read in more ways than one.
#![tactic(auto)]

ghost use Rattle.npf_config_law.specs.Laws.{OneLoad};

use npf_config::laws::text_is_decided;
use npf_parser::laws::{one_place, one_tree, tree_or_halt};

/// A text loads one configuration, but for the order of its tables' entries, or is refused for faults of one number at one place; and never
/// both.
pub fn one_load()
    ensures { OneLoad }
{
    one_tree();
    tree_or_halt();
    one_place();
    text_is_decided();
}
