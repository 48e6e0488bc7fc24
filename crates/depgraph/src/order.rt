//! The visited cells in order of first visit.
ghost use Rattle.std.specs.Prelude.{◌≡◌, ◌+◌, ◌*◌, ◌%◌, ◌<◌, ◌≤◌, ◌^◌};
ghost use Rattle.std.specs.Prelude.{ℕ, length, get_or, slice_get, Some, IfOk};
ghost use Rattle.depgraph.specs.Code.Entries.{begin_in};
ghost use Rattle.depgraph.specs.Code.Numbers.{cells_by, AreDistinct, AreKnown};
ghost use Rattle.depgraph.specs.Code.Orders.{AreByFirst, numbered};
ghost use Rattle.depgraph.specs.Code.Waits.{no_visit};

use crate::cell_hash::CellHashing;
use grid::Cell;
use indexmap::IndexMap;
use model::Visit;
use std::alloc::{AllocError, Global};

/// The numbers of the cells in order of first visit, by time and then by agent. The visits of each
/// cell stand together, as their times rise, and end there.
pub(crate) fn order_of(
    alloc: Global,
    visits: &[Visit],
    visit_ends: &[u32],
) -> Result<Vec<u32>, AllocError>
    requires few { length visit_ends.now < 2 ^ 32 }
    requires some { (n : ℕ) → n < length visit_ends.now
        → begin_in visit_ends.now n < get_or visit_ends.now n 0 }
    requires within { (n : ℕ) → n < length visit_ends.now
        → get_or visit_ends.now n 0 ≤ length visits.now }
    requires times { (k : ℕ) → k < length visits.now
        → (get_or visits.now k no_visit).time < 2 ^ 16 }
    ensures { IfOk result (λ v. AreByFirst visits.now visit_ends.now v.items) }
{
    // One number a cell, which begins with the time and the agent of its first visit: numbers are
    // sorted fastest.
    let mut firsts = Vec::with_capacity(alloc, visit_ends.len())?;
    let mut begin = 0;
    for n in 0..visit_ends.len() {
        let first = visits[begin];
        firsts.push(first_key(first.time, first.agent, n as u32))?;
        begin = visit_ends[n] as usize;
    }
    firsts.sort_unstable();
    let mut order = Vec::with_capacity(alloc, firsts.len())?;
    for first in &firsts {
        order.push(number_of(*first))?;
    }
    Ok(order)
}

/// The cells with these numbers, in this order, each with its number.
pub(crate) fn numbered_cells(
    alloc: Global,
    names: &[Cell],
    order: &[u32],
) -> Result<IndexMap<Cell, u32, CellHashing>, AllocError>
    requires distinct { AreDistinct names.now }
    requires known { (m : ℕ) → m < length order.now → get_or order.now m 0 < length names.now }
    requires different { (m l n : ℕ) → slice_get order.now m ≡ Some n
        → slice_get order.now l ≡ Some n → m ≡ l }
    ensures { IfOk result (λ cells. cells.entries ≡ numbered names.now order.now) }
{
    let listed = cells_by(alloc, names, order)?;
    let listed = listed.as_slice();
    let mut cells = IndexMap::with_capacity_and_hasher(alloc, order.len(), CellHashing)?;
    for m in 0..order.len() {
        cells.insert(listed[m], order[m])?;
    }
    Ok(cells)
}

/// The cells with these numbers, in this order. They are looked up by themselves, so that the
/// look-ups wait for memory together.
fn cells_by(alloc: Global, names: &[Cell], numbers: &[u32]) -> Result<Vec<Cell>, AllocError>
    requires { AreKnown names.now numbers.now }
    ensures { IfOk result (λ v. v.items ≡ cells_by names.now numbers.now) }
{
    let mut cells = Vec::with_capacity(alloc, numbers.len())?;
    for number in numbers {
        cells.push(names[*number as usize])?;
    }
    Ok(cells)
}

/// When the first visit of the cell with a number begins, whose it is, and the number, as one
/// number that goes by these in turn.
fn first_key(time: u32, agent: u16, number: u32) -> u64
    requires { time < 2 ^ 16 }
    ensures { result ≡ (time * 2 ^ 16 + agent) * 2 ^ 32 + number }
{
    (u64::from(time) << 48) | (u64::from(agent) << 32) | u64::from(number)
}

/// The number of the cell in such a number.
fn number_of(key: u64) -> u32
    ensures { result ≡ key % 2 ^ 32 }
{
    (key & u64::from(u32::MAX)) as u32
}
