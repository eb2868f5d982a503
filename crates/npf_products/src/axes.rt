// Dimensions that are cut by the sets of products.
ghost use Rattle.std.specs.Prelude.{◌≡◌, ◌≤◌, ◌<◌, ◌*◌, ◌^◌, IfOk, IsErrOf, length};
ghost use Rattle.npf_steps.specs.Spent.{IsSpent};
ghost use Rattle.npf_cut.specs.Dimension.{class_count};
ghost use Rattle.npf_products.specs.Axis.{AreAllRows, AreAxes, IsAxis, IsShapeOf, row_words};
ghost use Rattle.npf_products.specs.Number.{tops_of};

use crate::axis::Axis;
use crate::condition::Condition;
use crate::kind::{Carried, IpFamily, PacketKind};
use crate::sets::sets_of;
use npf_bits::word_count;
use npf_boxes::Shape;
use npf_cut::{Dimension, SetBits};
use npf_steps::{Steps, Stopped};
use npf_types::{List, NoMemory};
use std::alloc::Global;

/// The six dimensions, each cut by the sets of the tables, if it has addresses, and of the conditions on it.
pub(crate) fn axes_of(
    alloc: Global,
    kind: PacketKind,
    tables: &[List<(u128, u128)>],
    lists: &[List<Condition>],
    steps: &mut Steps,
) -> Result<Vec<Axis>, Stopped>
    ensures six { IfOk result (λ axes. length axes.items ≡ 6) }
    ensures axes { IfOk result (λ axes. AreAxes kind tables.now lists.now axes.items) }
    ensures spent { IsErrOf result Stopped.Spent → IsSpent steps.new }
    ensures most { steps.new.most ≡ steps.old.most }
    ensures rises { steps.old.taken ≤ steps.new.taken }
{
    let tops = tops_of(kind);
    let mut axes = Vec::new(alloc);
    for dimension in 0..6 {
        let axis = axis_of(alloc, dimension, tops[dimension], tables, lists, steps)?;
        axes.push(axis)?;
    }
    Ok(axes)
}

/// The dimension of the numbers up to the top, cut by the sets.
fn axis_of(
    alloc: Global,
    dimension: usize,
    top: u128,
    tables: &[List<(u128, u128)>],
    lists: &[List<Condition>],
    steps: &mut Steps,
) -> Result<Axis, Stopped>
    ensures axis { IfOk result (IsAxis top dimension tables.now lists.now) }
    ensures spent { IsErrOf result Stopped.Spent → IsSpent steps.new }
    ensures most { steps.new.most ≡ steps.old.most }
    ensures rises { steps.old.taken ≤ steps.new.taken }
{
    let (sets, numbers) = sets_of(alloc, dimension, tables, lists)?;
    let cut = Dimension::new(alloc, top, sets.ranges, steps)?;
    Ok(Axis {
        dimension: cut,
        count: sets.count,
        numbers,
    })
}

/// The highest number of each dimension.
fn tops_of(kind: PacketKind) -> [u128; 6]
    ensures { result ≡ tops_of kind }
{
    let address = match kind.family {
        IpFamily::Inet4 => u128::from(u32::MAX),
        IpFamily::Inet6 => u128::MAX,
    };
    match kind.carried {
        Carried::Tcp => [131071, address, address, 65535, 65535, 255],
        Carried::Udp => [131071, address, address, 65535, 65535, 0],
        Carried::Icmp => [131071, address, address, 255, 255, 0],
        Carried::Other => [131071, address, address, 255, 0, 0],
    }
}

/// The classes of the sets of each dimension.
pub(crate) fn rows_of(
    alloc: Global,
    axes: &[Axis],
    steps: &mut Steps,
) -> Result<Vec<SetBits>, Stopped>
    ensures rows { IfOk result (λ rows. AreAllRows axes.now rows.items) }
    ensures count { IfOk result (λ rows. length rows.items ≡ length axes.now) }
    ensures spent { IsErrOf result Stopped.Spent → IsSpent steps.new }
    ensures most { steps.new.most ≡ steps.old.most }
    ensures rises { steps.old.taken ≤ steps.new.taken }
{
    let mut rows = Vec::new(alloc);
    for axis in axes {
        rows.push(axis.dimension.bits(alloc, axis.count, steps)?)?;
    }
    Ok(rows)
}

/// How many words these are.
pub(crate) fn row_words(axes: &[Axis]) -> u128
    requires { length axes.now ≡ 6 }
    ensures value { result ≡ row_words axes.now }
    ensures small { result < 2 ^ 127 }
{
    let mut words = 0;
    for axis in axes {
        words += box_words(axis.count, word_count(axis.dimension.count()));
    }
    words
}

/// How many words so many sets or boxes of so many words have.
pub(crate) fn box_words(count: usize, words: usize) -> u128
    requires { words < 2 ^ 58 }
    ensures value { result ≡ count * words }
    ensures small { result < 2 ^ 122 }
{
    count as u128 * words as u128
}

/// The shape of boxes of these dimensions; none where a dimension has 2^32 classes or more.
pub(crate) fn shape_of(axes: &[Axis]) -> Result<Shape, NoMemory>
    requires { length axes.now ≡ 6 }
    ensures { IfOk result (λ shape. IsShapeOf shape axes.now) }
{
    let mut counts = [0; 6];
    for dimension in 0..6 {
        counts[dimension] = count_of(&axes[dimension])?;
    }
    Ok(Shape::new(counts))
}

/// How many classes the dimension has.
fn count_of(axis: &Axis) -> Result<u32, NoMemory>
    ensures { IfOk result (λ count. count ≡ class_count axis.now.dimension) }
{
    let count = axis.dimension.count();
    if count <= u32::MAX as usize {
        return Ok(count as u32);
    }
    Err(NoMemory)
}
