// Grammars as data: what is said with one token of sight, once, for every parser of this repository.
//
// specs/Phrase has the ways in which phrases are put together: a token, nothing, one behind another, one or another by the
// token that stands first, any number, and a value that has to fit. Each says what its tokens mean, where they stop, and
// how they are read. specs/Grammar has grammars, which are phrases as they are written down, and the forms that are made
// of them: `or`, `optional`, `separated`, `block_of`.
//
// The crate has no code, so it states no contract and no law: a parser's functions are proved against `(meaning g).read`, and
// its laws stand on lemmas of proofs/. One is of all grammars in which nothing that may be empty is repeated (`advances`):
// reading gives a value exactly where the tokens say one, and stops exactly where the grammar halts (`settled`). Another is of
// those whose examples stand apart (`fine`): the tokens before that place begin a text of the grammar without its tests of
// values (`loose`). Both tests compute.
#![tactic(auto)]
