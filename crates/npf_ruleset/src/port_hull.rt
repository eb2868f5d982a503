// The hull of a list of ranges of ports.
ghost use Rattle.std.specs.Prelude.{Some};
ghost use Rattle.npf_ruleset.specs.Row.{IsHullOfPorts, IsWithinRange};

use npf_types::List;

/// The least and the greatest port of all ranges that are listed. None without a list.
pub(crate) fn port_hull(ports: &Option<List<(u16, u16)>>) -> Option<(u16, u16)>
    ensures { IsHullOfPorts ports.now result }
{
    match ports {
        Some(ranges) => Some(ranges_hull(ranges.as_slice())),
        None => None,
    }
}

fn ranges_hull(ranges: &[(u16, u16)]) -> (u16, u16)
    ensures { IsHullOfPorts (Some ranges.now) (Some result) }
{
    let mut hull = (u16::MAX, 0);
    for range in ranges {
        hull = joined(hull, *range);
    }
    hull
}

fn joined(one: (u16, u16), other: (u16, u16)) -> (u16, u16)
    ensures one { IsWithinRange one result }
    ensures other { IsWithinRange other result }
{
    (one.0.min(other.0), one.1.max(other.1))
}
