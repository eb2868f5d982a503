// What the model of a configuration is once more interfaces are known: the same, but for the numbers of interfaces. So a model
// need not be elaborated anew. The function does nothing: it is a theorem, on which no other crate rests.
#![tactic(auto)]

ghost use Rattle.npf_expand_renumbering.specs.Renumbers.{Renumbers};

/// The law of renumbering: where a tree elaborates with a list of interfaces, it elaborates with every list that begins with
/// that one, and its model there is the model with its interfaces numbered by the longer list.
pub fn renumbers()
    ensures { Renumbers }
{}
