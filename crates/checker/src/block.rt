//! Blocks of steps: the acts in them, turned from a row for each agent into a row for each step,
//! and who is under way in them.
ghost use Rattle.std.specs.Prelude.{◌≡◌, ◌≢◌, ◌+◌, ◌<◌, ◌≤◌, ◌^◌};
ghost use Rattle.std.specs.Prelude.{ℕ, length, get_or, false, IfOk, vec_len};
ghost use Rattle.model.specs.declared.act.Act.TheVariants.{Wait as wait};
ghost use Rattle.checker.specs.Code.Walking.{has_act};
ghost use Rattle.checker.specs.Code.Squares.{ground_in, square_at};
ghost use Rattle.checker.specs.Code.Crowd.{act_at, walker_at};
ghost use Rattle.checker.specs.Code.Blocks.{block_steps, group_size, row_of_step, AreActRows};
ghost use Rattle.checker.specs.Code.Blocks.{AreGroupActs, AreBlockActs, HoldsSquares, IsLinedUp};

use crate::act_row::ActRow;
use crate::board::{HELD, NOBODY, Square};
use crate::crowd::Walker;
use crate::stretch::{BLOCK, Stretch};
use model::Act;
use plan_text::Course;
use std::alloc::{AllocError, Global};

/// The acts of so many walkers are turned at once.
const GROUP: usize = 32;

/// A row of waits for each step of a block, with room for so many agents.
pub(crate) fn rows(alloc: Global, count: usize) -> Result<Vec<ActRow>, AllocError>
    ensures rows { IfOk result (λ rows. AreActRows count rows.items) }
    ensures waits { IfOk result (λ rows. (s k : ℕ) → s < block_steps → k < count
        → act_at (row_of_step rows.items s) k ≡ wait) }
{
    let mut rows = Vec::with_capacity(alloc, BLOCK)?;
    for _step in 0..BLOCK {
        rows.push(ActRow::new(vec![in alloc; Act::Wait; count]?))?;
    }
    Ok(rows)
}

/// Lets the walkers without an act in the step hold their squares.
pub(crate) fn hold(courses: &[Course], step: u32, walkers: &[Walker], squares: &mut [Square])
    requires { (k : ℕ) → k < length walkers.now
        → (walker_at walkers.now k).place < length squares.old }
    ensures { HoldsSquares courses.now step walkers.now squares.old squares.new }
{
    for walker in walkers {
        if !has_act(courses, walker.agent, step) {
            squares[walker.place as usize] = Square::new(HELD, NOBODY);
        }
    }
}

/// Keeps the walkers with an act in the step, in the order of their places: those that are near one
/// another on the map then touch the same memory one after the other.
pub(crate) fn line_up(courses: &[Course], step: u32, walkers: &mut Vec<Walker>)
    ensures { IsLinedUp courses.now step walkers.old.items walkers.new.items }
{
    walkers.retain(|walker| has_act(courses, walker.agent, step));
    walkers.sort_unstable_by_key(|walker| walker.place);
}

/// Turns the acts of the walkers in the block into a row for each step.
pub(crate) fn turn(courses: &[Course], step: u32, walkers: &[Walker], rows: &mut [ActRow])
    requires agents { (k : ℕ) → k < length walkers.now
        → (walker_at walkers.now k).agent < length courses.now }
    requires rows { AreActRows (length courses.now) rows.old }
    requires room { length walkers.now ≤ length courses.now }
    ensures rows { AreActRows (length courses.now) rows.new }
    ensures acts { AreBlockActs courses.now step walkers.now rows.new }
{
    let mut first = 0;
    while first < walkers.len() {
        let end = walkers.len().min(first + GROUP);
        turn_group(courses, step, &walkers[first..end], first, rows);
        first = end;
    }
}

/// Turns the acts of a group of walkers, the first of which has this place in the rows. Those
/// behind the group may change too. All acts are fetched before the first is put into a row, so
/// that the group waits for far memory once, and not once for each walker. It is compiled by
/// itself, so that its loops have all registers.
#[inline(never)]
fn turn_group(courses: &[Course], step: u32, group: &[Walker], first: usize, rows: &mut [ActRow])
    requires agents { (k : ℕ) → k < length group.now
        → (walker_at group.now k).agent < length courses.now }
    requires size { length group.now ≤ group_size }
    requires rows { AreActRows (length courses.now) rows.old }
    requires room { first + length group.now ≤ length courses.now }
    ensures rows { AreActRows (length courses.now) rows.new }
    ensures before { (s k : ℕ) → s < block_steps → k < first → act_at (row_of_step rows.new s) k
        ≡ act_at (row_of_step rows.old s) k }
    ensures own { AreGroupActs courses.now step group.now first rows.new }
{
    let mut stretches = [[Act::Wait; BLOCK]; GROUP];
    for member in 0..group.len() {
        let course = &courses[usize::from(group[member].agent)];
        stretches[member] = Stretch::of(course.acts(), step as usize).into_acts();
    }
    for taken in 0..BLOCK {
        rows[taken].put(first, &stretches[..group.len()], taken);
    }
}

/// Whether there is such an agent, and it has an act in the step.
fn has_act(courses: &[Course], agent: u16, step: u32) -> bool
    ensures { result ≡ has_act courses.now step agent }
{
    match courses.get(usize::from(agent)) {
        Some(course) => (step as usize) < course.acts().len(),
        None => false,
    }
}
