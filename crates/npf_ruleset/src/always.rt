// Programs that describe every packet, such as that of `block all`. Such a rule is often the last match of a walk, so its program isn't run.
ghost use Rattle.std.specs.Prelude.{◌≡◌, true};
ghost use Rattle.npf_ruleset.specs.Always.{DescribesAll};

use npf_bpf::Operation::{AskHeader, ReturnConstant};
use npf_bpf::Program;

/// What a program returns on the packets that its rule describes.
pub(crate) const DESCRIBED: u32 = u32::MAX;

/// Whether a program tests nothing: it asks for the header, as each does, and returns at once that its rule describes the packet.
pub(crate) fn describes_all(program: &Program) -> bool
    ensures { result ≡ true → DescribesAll program.now }
{
    match program.insns() {
        [first, last] => *first == AskHeader.insn() && *last == ReturnConstant(DESCRIBED).insn(),
        _ => false,
    }
}
