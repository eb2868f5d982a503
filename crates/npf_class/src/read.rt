// The text of a class read.
ghost use Rattle.std.specs.Prelude.{◌≡◌, ◌≤◌, ◌++◌, Ok, IfOk, IfErr, length};
ghost use Rattle.npf_config_changes.specs.Told.{EndsUnlessMemory};
ghost use Rattle.npf_class.specs.Class.{MeansPassRule, ReadsClass, SaysUnlessMemory, own_fault, own_span, pass_bytes};

use npf_config_changes::{ChangeFault, mean_rule, read_rule};
use npf_faults::{ConfFault, Refused};
use npf_model::{Ifaces, Model, Rule};
use npf_types::limits::MAX_TEXT_BYTES;
use npf_types::{NoMemory, Span};
use std::alloc::Global;

/// What stands before a class in the text of its rule.
const PASS: &str = "pass ";

/// How many bytes stand there.
const PASS_BYTES: u32 = 5;

/// The most bytes of a class: with the word before it, it is a text that can be read.
pub const MAX_CLASS_BYTES: usize = MAX_TEXT_BYTES - 5;

/// The rule `pass CLASS` of a class's text of at most `MAX_CLASS_BYTES` bytes, beside a model and the run's interfaces. Refused for the first fault of
/// the rule's tokens, grammar, meaning or checks (10 to 49), at its place in the class's text, or for want of memory.
pub fn read_class(
    alloc: Global,
    text: &[u8],
    model: &Model,
    ifaces: &Ifaces,
) -> Result<Rule, Refused>
    requires { length text.now ≤ MAX_CLASS_BYTES }
    ensures ok { IfOk result (λ rule. ReadsClass ifaces.now.list model.now text.now (Ok rule)) }
    ensures err { IfErr result (SaysUnlessMemory (ReadsClass ifaces.now.list model.now text.now)) }
{
    let whole = with_pass(alloc, text)?;
    match read_pass_rule(alloc, whole.as_slice(), model, ifaces) {
        Ok(rule) => Ok(rule),
        Err(fault) => Err(own_fault(fault)),
    }
}

/// The text of the class's rule.
fn with_pass(alloc: Global, text: &[u8]) -> Result<Vec<u8>, NoMemory>
    ensures { IfOk result (λ whole. whole.items ≡ pass_bytes ++ text.now) }
{
    let mut whole = Vec::new(alloc);
    whole.extend_from_slice(PASS.as_bytes())?;
    whole.extend_from_slice(text)?;
    Ok(whole)
}

/// What the one rule of a text means.
fn read_pass_rule(
    alloc: Global,
    text: &[u8],
    model: &Model,
    ifaces: &Ifaces,
) -> Result<Rule, ChangeFault>
    requires { length text.now ≤ MAX_TEXT_BYTES }
    ensures ok { IfOk result (λ rule. MeansPassRule ifaces.now.list model.now text.now (Ok rule)) }
    ensures err { IfErr result (EndsUnlessMemory (MeansPassRule ifaces.now.list model.now text.now)) }
{
    let tree = read_rule(alloc, text)?;
    mean_rule(alloc, &tree, model, ifaces)
}

/// A fault of the class's rule, at its place in the class's text.
fn own_fault(fault: ChangeFault) -> Refused
    ensures { result ≡ own_fault fault }
{
    match fault {
        ChangeFault::Conf(ConfFault { span, fault }) => Refused::Fault(ConfFault {
            span: own_span(span),
            fault,
        }),
        _ => Refused::NoMemory,
    }
}

/// A place of the rule's text, in the class's text. What stands before the class is told at its beginning.
fn own_span(span: Span) -> Span
    ensures { result ≡ own_span span }
{
    let own = Span {
        line: span.line,
        col: span.col,
        at: span.at.saturating_sub(PASS_BYTES),
        len: span.len.saturating_sub(PASS_BYTES.saturating_sub(span.at)),
    };
    if span.line == 1 {
        Span {
            col: span.col.saturating_sub(PASS_BYTES).max(1),
            ..own
        }
    } else {
        own
    }
}
