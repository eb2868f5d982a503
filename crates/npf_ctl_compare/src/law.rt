// What it means that `same` is told. The functions do nothing: each is a theorem.
ghost use Rattle.npf_ctl_compare.specs.Agrees.{AgreedIsSame, SameAgrees};

use npf_compare::no_difference_is_alike;
use npf_compare_maps::untold_is_same;

/// Where `same` is told of two configurations, they do the same with each packet that there can be, and have the same settings.
pub fn same_agrees()
    ensures { SameAgrees }
{
    no_difference_is_alike();
    untold_is_same();
}

/// Where two configurations do the same with each packet that there can be, and have the same settings, `same` is told of them.
pub fn agreed_is_same()
    ensures { AgreedIsSame }
{}
