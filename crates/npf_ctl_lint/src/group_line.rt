// The lines of groups that no packet comes to.
ghost use Rattle.std.specs.Prelude.{◌≡◌, ◌++◌, OnOk};
ghost use Rattle.npf_ctl_lint.specs.GroupLine.{dead_group_line, dead_group_lines, found_group_line, some_dead_group};

use crate::line::write_line;
use npf_model::Group;
use npf_products::CellPacket;
use npf_text::write_text;
use npf_types::NoMemory;

/// Whether there is a group that no packet was found for.
pub(crate) fn some_dead_group(found: &[Option<CellPacket>]) -> bool
    ensures { result ≡ some_dead_group found.now }
{
    found.iter().any(|packet| packet.is_none())
}

/// Appends the lines of all groups, for which these packets were found.
pub(crate) fn write_groups(
    into: &mut Vec<u8>,
    groups: &[Group],
    found: &[Option<CellPacket>],
) -> Result<(), NoMemory>
    ensures { OnOk result (into.new.items ≡ into.old.items ++ dead_group_lines groups.now found.now) }
{
    for (group, packet) in groups.iter().zip(found.iter()) {
        write_group(into, group, packet)?;
    }
    Ok(())
}

// Appends the line of a group, if no packet was found for it.
fn write_group(
    into: &mut Vec<u8>,
    group: &Group,
    packet: &Option<CellPacket>,
) -> Result<(), NoMemory>
    ensures { OnOk result (into.new.items ≡ into.old.items ++ found_group_line (group.now, packet.now)) }
{
    match packet {
        Some(_) => Ok(()),
        None => write_dead(into, group.default, group.name.as_slice()),
    }
}

fn write_dead(into: &mut Vec<u8>, default: bool, name: &[u8]) -> Result<(), NoMemory>
    ensures { OnOk result (into.new.items ≡ into.old.items ++ dead_group_line default name.now) }
{
    if default {
        return write_text(into, "group default dead\n");
    }
    write_line(into, "group \"", name, "\" dead\n")
}
