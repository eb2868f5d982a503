// What is read where a canonical text is read again. The functions do nothing: each is a theorem.
//
// `npf_show` spells a model by pieces. Here stands that the lexer finds just these pieces in the text: where a word, a number, an address
// or a sign is told from what stands behind it, its token is its own (specs/Tokens), and in the text of a model whose names and numbers
// can be written each piece is told (specs/Showable); and what is written for a value means that value (specs/Values). What the
// whole text means stands in `npf_show_meaning`.
#![tactic(auto)]

ghost use Rattle.npf_show_tokens.specs.Showable.{ShowsTokens};
ghost use Rattle.npf_show_tokens.specs.Tokens.{TellsTokens};
ghost use Rattle.npf_show_tokens.specs.Values.{ValuesComeBack};

/// The law of tokens: a text of pieces, each told from what stands behind it, has the pieces' tokens, and `End` behind them.
pub fn tells_tokens()
    ensures { TellsTokens }
{}

/// The law of shown tokens: the canonical text of a showable model has the tokens of the model's pieces, and `End` behind them.
pub fn shows_tokens()
    ensures { ShowsTokens }
{}

/// The law of values: flags, blocks, names and the names of tables and procedures mean again what they were written for.
pub fn values_come_back()
    ensures { ValuesComeBack }
{}
