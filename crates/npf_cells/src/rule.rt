// The rule of the table, which each step keeps.
use atomic_table::TableRule;
use npf_cells_rule::CellView;
use npf_cells_words::Layout;
use npf_core::Law;
use npf_paths::KeyHash;
use std::marker::PhantomData;

/// A connection's flow and its count of steps, or none where the slot is vacant.
pub(crate) type Running<S> = Option<(S, u64)>;

pub(crate) type Sight<L: Law> = CellView<L::State, L::Arg, L::Reply>;

/// The rule of the table.
pub struct CellsRule<L: Law, H: KeyHash> {
    law: PhantomData<L>,
    hash: PhantomData<H>,
}

impl<L: Law, H: KeyHash> TableRule<
    Option<(L::State, u64)>,
    CellView<L::State, L::Arg, L::Reply>,
    Layout,
> for CellsRule<L, H> {
    ghost use Rattle.npf_cells_rule.specs.Cells.{IsCells, first_cell_view};

    ghost holds = { IsCells L.meaning H.digest };

    ghost first = { first_cell_view };
}
