// The text of a rule read, and what it means beside a model.
ghost use Rattle.std.specs.Prelude.{◌≤◌, Ok, IfOk, IfErr, length};
ghost use Rattle.npf_config_changes.specs.Additions.{MeansRule, ReadsRule};
ghost use Rattle.npf_config_changes.specs.Told.{EndsUnlessMemory};

use crate::fault::ChangeFault;
use npf_check::check_rule;
use npf_expand::expand_rule;
use npf_lexer::lex;
use npf_model::{Ifaces, Model, Rule};
use npf_parser::parse_rule;
use npf_syntax::RuleTree;
use npf_types::limits::MAX_TEXT_BYTES;
use std::alloc::Global;

/// The tree of the one rule that the text is, of at most `MAX_TEXT_BYTES` bytes, or the first fault of its tokens or of the grammar.
pub fn read_rule(alloc: Global, text: &[u8]) -> Result<RuleTree, ChangeFault>
    requires { length text.now ≤ MAX_TEXT_BYTES }
    ensures ok { IfOk result (λ tree. ReadsRule text.now (Ok tree)) }
    ensures err { IfErr result (EndsUnlessMemory (ReadsRule text.now)) }
{
    let tokens = lex(alloc, text)?;
    Ok(parse_rule(alloc, &tokens)?)
}

/// What the rule means beside the model, or the first fault of its meaning or of the checks.
pub fn mean_rule(
    alloc: Global,
    tree: &RuleTree,
    model: &Model,
    ifaces: &Ifaces,
) -> Result<Rule, ChangeFault>
    ensures ok { IfOk result (λ rule. MeansRule ifaces.now.list model.now tree.now (Ok rule)) }
    ensures err { IfErr result (EndsUnlessMemory (MeansRule ifaces.now.list model.now tree.now)) }
{
    let rule = expand_rule(alloc, tree, model, ifaces)?;
    check_rule(tree, &rule)?;
    Ok(rule)
}
