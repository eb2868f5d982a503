// The law of `show`: the canonical text of an accepted configuration means that configuration again. The functions do nothing: each is a
// theorem.
//
// `npf_show_meaning` proves it of every model that is showable and regular. Here stands that models of accepted texts are: a text's tokens are
// sound (proofs/Lexed), so every statement of their tree is (proofs/Gives, proofs/Sound), and what statements without a fault mean is
// showable and regular, from values (proofs/Atoms) to the whole tree (proofs/TreeMeant).
#![tactic(auto)]

ghost use Rattle.npf_show_law.specs.Law.{AcceptedIsShown, InterfacesFit, LawOfShow, TokensAreSound};

/// The tokens of a text are sound: its words are runs, its strings have neither quotes nor line feeds, its addresses fit their families.
pub fn tokens_are_sound()
    ensures { TokensAreSound }
{}

/// The addresses of the interfaces that a file says fit their families, as the next two laws ask.
pub fn interfaces_fit()
    ensures { InterfacesFit }
{}

/// The model of an accepted text is showable and regular: its canonical text means it again, and is read again where it is short enough.
pub fn accepted_is_shown()
    ensures { AcceptedIsShown }
{}

/// The law of `show`: the canonical text of what an accepted text means is a configuration without a fault that means the same, but for the
/// places of its tables in the text.
pub fn law_of_show()
    ensures { LawOfShow }
{}
