// A packet, as a walk sees it and as a program asks of it. The machine is kept out of the walk's loop, so that a rule whose row doesn't
// admit the packet costs a few compares and no frame for the machine's registers.
ghost use Rattle.std.specs.Prelude.{◌≡◌};
ghost use Rattle.npf_bpfgen.specs.Premise.{ip_version};
ghost use Rattle.npf_ruleset.specs.Row.{destination_end, source_end};

use crate::always::DESCRIBED;
use crate::flat::FlatRule;
use crate::row::PacketEnd;
use crate::tables::table_has;
use npf_bpf::Program;
use npf_bpfvm::{Cop, run};
use npf_table::Table;
use npf_types::{Addr, Dir, Facts, IfId};
use std::sync::Arc;

/// A packet's facts and bytes, where it passes, and the tables that its addresses are looked up in. What rows ask of its ends stands
/// beside the facts, so that it isn't found anew for each rule.
#[derive(Clone, Copy, Drop)]
pub(crate) struct PacketView<'a> {
    pub(crate) facts: &'a Facts,
    pub(crate) ip: &'a [u8],
    pub(crate) ifid: IfId,
    pub(crate) dir: Dir,
    pub(crate) tables: &'a [Arc<Table>],
    pub(crate) source: PacketEnd,
    pub(crate) destination: PacketEnd,
    pub ghost from: { source ≡ source_end facts.now },
    pub ghost to: { destination ≡ destination_end facts.now },
}

impl PacketView<'_> {
    ghost use Rattle.std.specs.Prelude.{◌==◌};
    ghost use Rattle.npf_bpf.specs.Value.{program_value};
    ghost use Rattle.npf_ruleset.specs.Packet.{coprocessor, flat_matches};

    /// Whether the rule matches: its row admits the packet, it isn't bound to elsewhere, and its
    /// program describes it. Inlined into the loops over rules, most of which are left at their rows.
    /// A rule that describes every packet has no program run.
    #[inline(always)]
    pub(crate) fn meets(&self, rule: &FlatRule) -> bool
        ensures { result ≡ flat_matches self.now rule.now }
    {
        rule.row.admits(self)
            && rule.binding.leaves(self.ifid, self.dir)
            && (rule.always || self.is_described(&rule.program))
    }

    // Whether a rule's program describes it. Few rules come so far, so the machine is kept out of the loop over the others.
    #[inline(never)]
    fn is_described(&self, program: &Program) -> bool
        ensures { result ≡ (program_value program.now self.now.ip.now (coprocessor self.now) == 4294967295) }
    {
        run(program, self.ip, self) == DESCRIBED
    }
}

impl Cop for PacketView<'_> {
    ghost use Rattle.npf_ruleset.specs.Packet.{coprocessor};

    ghost tells = { coprocessor };

    fn header(&self) -> (u32, u32, u32) {
        (
            version(self.facts.src),
            self.facts.l4_at.saturating_sub(self.facts.ip_at),
            u32::from(self.facts.proto),
        )
    }

    fn member(&self, table: u32, source: bool) -> bool {
        let addr = if source {
            self.facts.src
        } else {
            self.facts.dst
        };
        table_has(self.tables, table, addr)
    }
}

fn version(addr: Addr) -> u32
    ensures { result ≡ ip_version addr }
{
    match addr {
        Addr::V4(_) => 4,
        Addr::V6(_) => 6,
    }
}
