// What the canonical text of a model means. The functions do nothing: each is a theorem.
//
// `npf_show` spells a model, and `npf_show_tokens` says which tokens the text has. Here stands that these tokens are a configuration of
// npf.conf(5), read by its grammar, and that it means the model again, but for the places in the text (specs/Law). The model has to be one
// as texts make them (specs/Regular): proofs/Goes reads tokens of which only the kinds are known, and the modules above it go through the
// grammar line by line, from values to the whole text.
#![tactic(auto)]

ghost use Rattle.npf_show_meaning.specs.Law.{ShownTextMeans};

/// The law of shown texts: the canonical text of a showable model as texts make them is a configuration without a fault that means the
/// same model, but for the places of its tables in the text.
pub fn shown_text_means()
    ensures { ShownTextMeans }
{}
