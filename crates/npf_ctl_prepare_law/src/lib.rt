// The law of preparing: over told files, of which no read fails, what a run is prepared from is one. The function does nothing: it is a
// theorem about the stages of the order of work, each of which may be read in more ways than one.
#![tactic(auto)]

ghost use Rattle.npf_ctl_prepare_law.specs.Laws.{OneLoadAlone, OneRun};

use npf_config::laws::text_is_decided;
use npf_config_changes::laws::{one_addition, one_removal};
use npf_ctl_script::laws::{no_script_is_refused, one_script};
use npf_parser::laws::{one_place, one_tree, tree_or_halt};
use npf_pcap::laws::capture_law;

/// A run is prepared from one plan, but for the order of its tables' entries, or it is refused for faults that are told alike, and never both;
/// and so is a configuration that is only looked at.
pub fn one_run()
    ensures run { OneRun }
    ensures load { OneLoadAlone }
{
    one_tree();
    tree_or_halt();
    one_place();
    text_is_decided();
    one_script();
    no_script_is_refused();
    capture_law();
    one_addition();
    one_removal();
}
