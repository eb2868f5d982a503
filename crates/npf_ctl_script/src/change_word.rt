// What is done to a ruleset or a table.
ghost use Rattle.std.specs.Prelude.{◌≡◌, ◌≢◌, MatchOption};
ghost use Rattle.npf_ctl_script.specs.declared.change_word.Verb.{Verb as VerbType};
ghost use Rattle.npf_ctl_script.specs.Commands.{verb_text};

/// The change of a ruleset or of a table.
#[derive(Clone, Copy)]
pub(crate) enum Verb {
    Add,
    RemId,
    Rem,
    Flush,
}

/// The change that the word names.
pub(crate) fn verb_of(word: &[u8]) -> Option<Verb>
    ensures { MatchOption result ((verb : VerbType) → word.now ≢ verb_text verb) (λ verb. word.now ≡ verb_text verb) }
{
    match word {
        b"add" => Some(Verb::Add),
        b"rem-id" => Some(Verb::RemId),
        b"rem" => Some(Verb::Rem),
        b"flush" => Some(Verb::Flush),
        _ => None,
    }
}
