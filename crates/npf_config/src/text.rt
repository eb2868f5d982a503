// The stages of the language, one after another.
ghost use Rattle.std.specs.Prelude.{◌≤◌, length, IfOk, IfErr, List};
ghost use Rattle.npf_model.specs.declared.iface.Iface.{Iface};
ghost use Rattle.npf_config.specs.Stage.{IfConf};
ghost use Rattle.npf_config.specs.Text.{IsTreeOf, Means, RefusesText};

use crate::fault::LoadFault;
use npf_check::check;
use npf_expand::expand;
use npf_lexer::lex;
use npf_model::{Ifaces, Model};
use npf_parser::parse;
use npf_syntax::Tree;
use npf_types::limits::MAX_TEXT_BYTES;
use std::alloc::Global;

/// A text's tree and the model that it means, or the fault of the first stage that has one.
pub(crate) fn read_text(
    alloc: Global,
    text: &[u8],
    ifaces: &Ifaces,
) -> Result<(Tree, Model), LoadFault>
    requires { length text.now ≤ MAX_TEXT_BYTES }
    ensures ok { IfOk result (λ read. Means ifaces.now.list text.now read.0 read.1) }
    ensures refuses { IfErr result (IfConf (RefusesText ifaces.now.list text.now)) }
{
    let tree = read_tree(alloc, text)?;
    let model = expand(alloc, &tree, ifaces)?;
    check(alloc, &tree, &model)?;
    Ok((tree, model))
}

fn read_tree(alloc: Global, text: &[u8]) -> Result<Tree, LoadFault>
    requires { length text.now ≤ MAX_TEXT_BYTES }
    ensures ok { IfOk result (IsTreeOf text.now) }
    ensures refuses { (ifaces : List Iface) → IfErr result (IfConf (RefusesText ifaces text.now)) }
{
    let tokens = lex(alloc, text)?;
    Ok(parse(alloc, &tokens)?)
}
