// The canonical text of a model: npf.conf(5) with variables and words replaced, lists spliced and functions evaluated, a statement a
// line, in one form for each meaning. docs/npf.conf.5 has the form, under "The canonical text".
//
// A text is made of pieces: words, strings in quotes, numbers, addresses and signs, which spaces part. Each line of the language
// is one definition in specs/, a list of pieces, and one `impl Shown`, which writes them behind what stands there already.
//
// The contract: `show` gives the spelling of the model's pieces, and `show_rule` and `show_map` that of the pieces of one rule or map, unless
// memory runs out. That this text means the model again where the model is that of an accepted text is for the crates above to say.
#![tactic(auto)]

mod bound;
mod ends;
mod filter;
mod group;
mod map;
mod model;
mod page;
mod procedure;
mod rule;
mod setting;
mod shown;
mod table;

pub use map::show_map;
pub use model::show;
pub use page::hex_digit;
pub use rule::show_rule;
