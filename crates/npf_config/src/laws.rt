// What follows of the stages of the language, whatever the text: each is a theorem about the relations that `load` answers.
ghost use Rattle.npf_config.specs.Laws.{NeverBoth, OneMeaning};

use npf_parser::laws::{one_tree, tree_or_halt};

/// A text means one model, and no text that means something is refused by a stage of the language.
pub fn text_is_decided()
    ensures one_meaning { OneMeaning }
    ensures never_both { NeverBoth }
{
    one_tree();
    tree_or_halt();
}
