// What follows of the grammar, whatever the tokens: each is a theorem about the relations that `parse` answers.
ghost use Rattle.npf_parser.specs.Law.{OneTree, OnePlace, TreeOrHalt, StopsWhereHalted};

/// The grammar is unambiguous: tokens have one tree at most.
pub fn one_tree()
    ensures { OneTree }
{}

/// Tokens halt at one place at most.
pub fn one_place()
    ensures { OnePlace }
{}

/// Tokens are a configuration, or they halt at some place; and never both.
pub fn tree_or_halt()
    ensures { TreeOrHalt }
{}

/// Where tokens halt, those before that place begin a configuration, were every value to fit; and whatever stands behind
/// the next token, or behind an unfit value and the token that ends it, no configuration begins so.
pub fn hopeless()
    ensures { StopsWhereHalted }
{}
