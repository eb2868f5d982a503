// A packet of a class.
ghost use Rattle.std.specs.Prelude.{◌≡◌, ◌≤◌, true, false, take, Ok, None, IfOk, IfSome, IsErrOf};
ghost use Rattle.npf_types.specs.declared.direction.Dir.{Dir};
ghost use Rattle.npf_types.specs.declared.facts.Facts.{Facts};
ghost use Rattle.npf_types.specs.declared.interface.IfId.{IfId};
ghost use Rattle.npf_model.specs.Describes.{Tables};
ghost use Rattle.npf_steps.specs.Spent.{IsSpent};
ghost use Rattle.npf_ruleset.specs.Configuration.{configuration};
ghost use Rattle.npf_ruleset.specs.Tables.{entries};
ghost use Rattle.npf_products.specs.Product.{product_holds};
ghost use Rattle.npf_reach.specs.Kinds.{IsPacket};
ghost use Rattle.npf_ctl_explain.specs.Class.{IsOfClass, describes_there};

use npf_model::{OnIf, Rule};
use npf_precedence::RuleEntry;
use npf_products::{CellPacket, Product, Subject, TableSpan};
use npf_reach::{Packets, cells_of};
use npf_ruleset::Config;
use npf_search::Decider;
use npf_steps::{Steps, Stopped};
use npf_table::Table;
use npf_types::{Dir, Facts, List, NoMemory, Prefix};
use std::alloc::Global;
use std::sync::Arc;

/// Where packets pass: an interface, with its number in the run, and a direction.
#[derive(Clone, Copy, Debug, PartialEq, Eq)]
pub struct Passage {
    pub on: OnIf,
    pub dir: Dir,
}

/// The only one of a list of one.
const THE_FIRST: Decider = Decider {
    first: 0,
    count: 1,
    place: 0,
};

/// A packet that there can be, which the class's rule describes and which passes there. None exactly where there is none: so
/// of an interface that isn't one of the run's.
///
/// # Errors
/// `Stopped::Spent` where the steps don't suffice, and want of memory.
pub fn packet_of_class(
    alloc: Global,
    config: &Config,
    class: &Rule,
    passage: Passage,
    steps: &mut Steps,
) -> Result<Option<Facts>, Stopped>
    ensures none { result ≡ Ok None → (facts : Facts) → ¬ IsOfClass (configuration config.now) class.now passage.on.id passage.dir facts }
    ensures found { IfOk result (λ found. IfSome found (IsOfClass (configuration config.now) class.now passage.on.id passage.dir)) }
    ensures spent { IsErrOf result Stopped.Spent → IsSpent steps.new }
    ensures most { steps.new.most ≡ steps.old.most }
    ensures rises { steps.old.taken ≤ steps.new.taken }
{
    let tables = tables_of(alloc, config.tables())?;
    let product = class_there(class, passage, tables.len());
    match packet_of_product(alloc, tables.as_slice(), &product, steps)? {
        Some(packet) => Ok(Some(packet.facts)),
        None => Ok(None),
    }
}

/// The class's rule in a group that is bound to this interface and direction, with so many tables.
fn class_there(class: &Rule, passage: Passage, tables: usize) -> Product<'_>
    ensures { (all : Tables) (facts : Facts) (ifid : IfId) (way : Dir)
        → product_holds result all facts ifid way ≡ describes_there class.now passage.on passage.dir (take tables all) facts ifid way }
{
    Product {
        subject: Subject::Entry(RuleEntry {
            place: 0,
            group_dir: Some(passage.dir),
            group_on: Some(passage.on),
            within_dir: None,
            within_on: None,
            rule: class,
        }),
        tables: TableSpan {
            first: 0,
            count: tables,
        },
    }
}

/// A packet that there can be, where it passes, of which the product holds; none exactly where there is none.
fn packet_of_product(
    alloc: Global,
    tables: &[List<Prefix>],
    product: &Product<'_>,
    steps: &mut Steps,
) -> Result<Option<CellPacket>, Stopped>
    ensures none { result ≡ Ok None → (facts : Facts) (ifid : IfId) (dir : Dir) → IsPacket facts ifid
        → product_holds product.now tables.now facts ifid dir ≡ false }
    ensures possible { IfOk result (λ found. IfSome found (λ packet. IsPacket packet.facts packet.ifid)) }
    ensures holds { IfOk result (λ found. IfSome found (λ packet. product_holds product.now tables.now packet.facts packet.ifid packet.dir ≡ true)) }
    ensures spent { IsErrOf result Stopped.Spent → IsSpent steps.new }
    ensures most { steps.new.most ≡ steps.old.most }
    ensures rises { steps.old.taken ≤ steps.new.taken }
{
    let products = [*product];
    let cells = cells_of(alloc, tables, &products, steps)?;
    let all = Packets::new(alloc, tables, &products, cells.as_slice())?;
    let own = all.narrow(alloc, THE_FIRST, steps)?;
    own.packet(alloc, steps)
}

/// The entries of tables.
fn tables_of(alloc: Global, tables: &[Arc<Table>]) -> Result<Vec<List<Prefix>>, NoMemory>
    ensures { IfOk result (λ made. made.items ≡ entries tables.now) }
{
    let mut made = Vec::new(alloc);
    for table in tables {
        made.push(List::of_vec(table.to_vec(alloc)?))?;
    }
    Ok(made)
}
