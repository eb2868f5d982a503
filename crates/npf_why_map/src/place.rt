// The map that is written at a place.
ghost use Rattle.std.specs.Prelude.{◌≡◌, zip};
ghost use Rattle.npf_check.specs.WrittenMap.{map_written};
ghost use Rattle.npf_why_map.specs.Place.{first_reason, maps_behind, reason_at};
ghost use Rattle.npf_why_map.specs.Side.{tables_after};

use crate::reason::{MapReason, map_reason};
use crate::side::has_table;
use npf_model::{Map, Model};
use npf_syntax::{Stmt, Tree};

/// Why the map that is written at this byte of the text can't be, whose tree and model are given; None where it can, and where no map is.
pub fn reason_at(at: u32, tree: &Tree, model: &Model) -> Option<MapReason>
    ensures { result ≡ reason_at at tree.now model.now }
{
    let stmts = tree.stmts.as_slice();
    let mut rest = model.maps.as_slice();
    for place in 0..stmts.len() {
        let stmt = &stmts[place];
        let reason = reason_of(at, stmts.split_at(place).0, stmt, rest);
        if reason.is_some() {
            return reason;
        }
        rest = maps_behind(stmt, rest);
    }
    None
}

/// Of a statement behind others, where the first of these maps is its own if it is a map.
fn reason_of(at: u32, before: &[Stmt], stmt: &Stmt, maps: &[Map]) -> Option<MapReason>
    ensures { result ≡ first_reason at (zip (map_written (tables_after before.now) stmt.now) maps.now) }
{
    match (stmt, maps.first()) {
        (
            Stmt::Map {
                span,
                kind,
                left,
                right,
                ..
            },
            Some(map),
        ) if span.at == at => {
            let by_table = has_table(before, &left.get().value, &right.get().value);
            map_reason(by_table, kind.get(), map)
        }
        _ => None,
    }
}

fn maps_behind<'a>(stmt: &Stmt, maps: &'a [Map]) -> &'a [Map]
    ensures { result.now ≡ maps_behind stmt.now maps.now }
{
    match (stmt, maps.split_first()) {
        (Stmt::Map { .. }, Some((_, behind))) => behind,
        _ => maps,
    }
}
