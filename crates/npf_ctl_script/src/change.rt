// A change of a ruleset or a table: a name, what is done, and what it is done with.
ghost use Rattle.std.specs.Prelude.{◌≡◌, MatchOption};
ghost use Rattle.npf_types.specs.declared.name.Name.{Name as NameType};
ghost use Rattle.npf_ctl_script.specs.declared.change_word.Verb.{Verb as VerbType};
ghost use Rattle.npf_ctl_script.specs.Arguments.{IsChange, behind_change};

use crate::change_word::{Verb, verb_of};
use crate::words::split_word;
use npf_types::Name;

/// The front of a change, and what stands behind it.
#[derive(Clone, Copy)]
pub(crate) struct ChangeFront<'a> {
    pub(crate) name: Name,
    pub(crate) verb: Verb,
    pub(crate) behind: &'a [u8],
}

/// The change that the text begins with.
pub(crate) fn split_change(text: &[u8]) -> Option<ChangeFront<'_>>
    ensures { MatchOption result
        ((name : NameType) (verb : VerbType) → ¬ IsChange text.now name verb)
        (λ change. IsChange text.now change.name change.verb × (change.behind.now ≡ behind_change text.now)) }
{
    let (name, behind) = split_word(text);
    let Some(name) = Name::of(name) else {
        return None;
    };
    let (verb, behind) = split_word(behind);
    let Some(verb) = verb_of(verb) else {
        return None;
    };
    Some(ChangeFront { name, verb, behind })
}
