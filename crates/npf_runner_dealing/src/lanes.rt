// Items dealt to lanes and gathered again.
ghost use Rattle.std.specs.Prelude.{◌≡◌, ◌≤◌, ◌<◌, ◌+◌, ◌++◌, List, [], All, IfOk, length, map, vec_len, vec_capacity};
ghost use Rattle.npf_runner_dealing.specs.Lanes.{IsDealt, queue_items, vec_items};

use npf_types::NoMemory;
use std::alloc::Global;
use std::collections::VecDeque;

/// The items of each of so many lanes, where `order` names the lane of each item; and the list in which they were, with none left.
pub fn deal<T: Drop>(
    alloc: Global,
    items: Vec<T>,
    order: &[u8],
    lanes: u32,
) -> Result<(Vec<Vec<T>>, Vec<T>), NoMemory>
    requires count { vec_len items ≡ length order.now }
    requires lanes { All (λ lane. lane < lanes) order.now }
    ensures count { IfOk result (λ dealt. vec_len dealt.0 ≡ lanes) }
    ensures dealt { IfOk result (λ dealt.
        IsDealt order.now items.items (map vec_items dealt.0.items)) }
    ensures emptied { IfOk result (λ dealt. dealt.1.items ≡ []) }
{
    let mut dealt = empty_lanes(alloc, order, lanes)?;
    let mut left = VecDeque::from(items);
    for lane in order {
        let item = left.pop_front().unwrap();
        dealt[*lane as usize].push(item)?;
    }
    Ok((dealt, left.into_vec()))
}

// Each lane has room for its items, so that none grows.
fn empty_lanes<T: Drop>(alloc: Global, order: &[u8], lanes: u32) -> Result<Vec<Vec<T>>, NoMemory>
    requires { All (λ lane. lane < lanes) order.now }
    ensures count { IfOk result (λ made. vec_len made ≡ lanes) }
    ensures empty { IfOk result (λ made. All (λ lane. lane.items ≡ []) made.items) }
{
    let sizes = sizes_of(alloc, order, lanes)?;
    let mut made = Vec::with_capacity(alloc, lanes as usize)?;
    for size in sizes.as_slice() {
        made.push_reserved(Vec::with_capacity(alloc, *size)?);
    }
    Ok(made)
}

// How many items go to each lane.
fn sizes_of(alloc: Global, order: &[u8], lanes: u32) -> Result<Vec<usize>, NoMemory>
    requires { All (λ lane. lane < lanes) order.now }
    ensures { IfOk result (λ sizes. vec_len sizes ≡ lanes) }
{
    let mut sizes = vec![in alloc; 0; lanes as usize]?;
    for lane in order {
        sizes[*lane as usize] += 1;
    }
    Ok(sizes)
}

/// All that was there, and then the lanes' items in the order of the whole. It takes no memory.
pub fn gather<T: Drop>(order: &[u8], mut lanes: Vec<VecDeque<T>>, mut all: Vec<T>) -> Vec<T>
    requires dealt { (xs : List T) × IsDealt order.now xs (map queue_items lanes.items) }
    requires room { vec_len all + length order.now ≤ vec_capacity all }
    ensures gathered { (xs : List T) → IsDealt order.now xs (map queue_items lanes.items) →
        result.items ≡ all.items ++ xs }
    ensures capacity { vec_capacity result ≡ vec_capacity all }
{
    for lane in order {
        let item = lanes[*lane as usize].pop_front().unwrap();
        all.push_reserved(item);
    }
    all
}

/// All that was there, and then the lane's items. It takes no memory.
pub fn append<T: Drop>(mut lane: VecDeque<T>, mut all: Vec<T>) -> Vec<T>
    requires room { vec_len all + length lane.items ≤ vec_capacity all }
    ensures items { result.items ≡ all.items ++ lane.items }
    ensures capacity { vec_capacity all ≤ vec_capacity result }
{
    if all.is_empty() && all.capacity() <= lane.capacity() {
        return lane.into_vec();
    }
    for _ in 0..lane.len() {
        all.push_reserved(lane.pop_front().unwrap());
    }
    all
}

/// All that was there, in the one of both lists that has more room: the other one is empty. It takes no memory.
pub fn roomier<T: Drop>(all: Vec<T>, emptied: Vec<T>) -> Vec<T>
    requires { emptied.items ≡ [] }
    ensures items { result.items ≡ all.items }
    ensures capacity { vec_capacity all ≤ vec_capacity result }
{
    if all.is_empty() && all.capacity() <= emptied.capacity() {
        return emptied;
    }
    all
}
