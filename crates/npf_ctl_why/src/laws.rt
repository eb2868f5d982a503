// What holds of each explanation. The function does nothing: it is a theorem.
ghost use Rattle.npf_ctl_why.specs.Laws.{EachBadMapIsExplained};

use npf_parser::laws::one_tree;
use npf_why_map::laws::{each_bad_map_has_reason, each_reason_is_of_map};

/// Of a text that means something each map that can't be is explained by a condition that holds of it.
pub fn each_bad_map_is_explained()
    ensures { EachBadMapIsExplained }
{
    one_tree();
    each_bad_map_has_reason();
    each_reason_is_of_map();
}
