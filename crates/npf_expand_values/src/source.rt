// Where tables and procedures are declared.
use npf_model::Model;
use npf_syntax::Stmt;

/// What declares the tables and procedures that rules name: the statements of a text, or a model.
#[derive(Clone, Copy)]
pub enum Source<'a> {
    InText(&'a [Stmt]),
    InModel(&'a Model),
}
