//! Agents on their way: where they are at a time, and their next acts.
ghost use Rattle.std.specs.Prelude.{◌≡◌, ◌+◌, ◌-◌, ◌<◌, ◌^◌, ℕ, length, IfOk};
ghost use Rattle.checker.specs.Moving.{block_steps, cell_by};
ghost use Rattle.checker.specs.Code.Standing.{cell_in};
ghost use Rattle.checker.specs.Code.Walking.{start_cells};
ghost use Rattle.plan_commands.specs.Code.Rows.{AllWalked, row_at};
ghost use Rattle.plan_commands.specs.Code.Walks.{AreStretches, IsCellInRange, act_in, begun};

use checker::{BLOCK, Stretch, next_cell};
use grid::Cell;
use plan_text::Course;
use std::alloc::{AllocError, Global};

/// The cells in which the agents start.
pub(crate) fn starts(alloc: Global, courses: &[Course]) -> Result<Vec<Cell>, AllocError>
    ensures { IfOk result (λ cells. cells.items ≡ start_cells courses.now) }
{
    courses.iter().map(|course| course.start()).collect(alloc)
}

/// The acts of each agent in the first block. They lie together, where those of a plan lie all over
/// memory.
pub(crate) fn first_stretches(alloc: Global, courses: &[Course]) -> Result<Vec<Stretch>, AllocError>
    ensures { IfOk result (λ stretches. AreStretches courses.now 0 stretches.items) }
{
    let mut stretches = Vec::with_capacity(alloc, courses.len())?;
    for agent in 0..courses.len() {
        stretches.push(Stretch::of(courses[agent].acts(), 0))?;
    }
    Ok(stretches)
}

/// Takes each agent one step on, and lines up their acts where a block ends with the step.
pub(crate) fn go_on(courses: &[Course], step: usize, cells: &mut [Cell], stretches: &mut [Stretch])
    requires step { step + 1 < 2 ^ 32 }
    requires walked { AllWalked courses.now }
    requires cells { cells.old ≡ row_at courses.now step }
    requires stretches { AreStretches courses.now (begun step) stretches.old }
    ensures cells { cells.new ≡ row_at courses.now (step + 1) }
    ensures stretches { AreStretches courses.now (begun (step + 1)) stretches.new }
{
    walk_on(stretches, step % BLOCK, cells);
    come_to(courses, step + 1, stretches);
}

/// Lines up the acts of each agent where a block begins with the step.
fn come_to(courses: &[Course], step: usize, stretches: &mut [Stretch])
    requires step { step < 2 ^ 32 }
    requires some { 0 < step }
    requires before { AreStretches courses.now (begun (step - 1)) stretches.old }
    ensures { AreStretches courses.now (begun step) stretches.new }
{
    if step % BLOCK == 0 {
        line_up(courses, step, stretches);
    }
}

/// Lines up the acts of each agent in the block from the step on.
fn line_up(courses: &[Course], step: usize, stretches: &mut [Stretch])
    requires step { step < 2 ^ 32 }
    requires count { length stretches.old ≡ length courses.now }
    ensures { AreStretches courses.now step stretches.new }
{
    for agent in 0..courses.len() {
        stretches[agent] = Stretch::of(courses[agent].acts(), step);
    }
}

/// Takes each agent on by its act in a step of the block.
fn walk_on(stretches: &[Stretch], step: usize, cells: &mut [Cell])
    requires step { step < block_steps }
    requires count { length stretches.now ≡ length cells.old }
    requires range { (i : ℕ) → i < length cells.old
        → IsCellInRange (cell_by (act_in stretches.now i step) (cell_in cells.old i)) }
    ensures count { length cells.new ≡ length cells.old }
    ensures led { (i : ℕ) → i < length cells.old
        → cell_in cells.new i ≡ cell_by (act_in stretches.now i step) (cell_in cells.old i) }
{
    for agent in 0..cells.len() {
        cells[agent] = next_cell(cells[agent], stretches[agent].acts()[step]);
    }
}
