// What the lines of npf.conf(5) are made of: its tokens, interfaces, values, protocols and lists of them, read with one
// token of sight.
//
// specs/ has the lines of the grammar for these, as phrases of npf_phrase, and the text that a phrase takes. npf_parser has
// the lines above: filters, rules, statements.
//
// The contract: each function answers what its phrase reads. That is what the phrase says and the tokens behind it, or the
// tokens at which it stops going on (`Answers`); want of memory says nothing. What takes no memory never answers want of it
// (`AnswersAlone`). Where nothing is said, an answer tells whether the phrase begins here (`Begins`), or what the tokens
// behind it are (`GoesOn`). `refused_by` makes a stop the fault 20 at its place.
#![tactic(auto)]

mod leaf;
mod protocol;
mod role;
mod stop;
mod text;
mod tokens;
mod value;

pub use leaf::{
    read_flags, read_name_string, read_name_word, read_number, read_number_to, read_string,
    read_text_string, read_variable, read_word,
};
pub use protocol::{read_one, read_protocols};
pub use role::ValueRole;
pub use stop::{Stop, refused_by};
pub use text::span_to;
pub use tokens::{
    after_sign, after_word, behind_name, behind_separator, behind_sign, behind_word,
    is_at_separator, read_end,
};
pub use value::{read_iface, read_value, read_value_list, read_values};
