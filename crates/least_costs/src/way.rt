//! Whether a walk leads from a start to a goal.
ghost use Rattle.std.specs.Prelude.{◌≡◌, ◌+◌, ◌<◌, ◌↔◌, ℕ, false};
ghost use Rattle.std.specs.Prelude.{true, length, slice_get, Some, IsTrue};
ghost use Rattle.grid.specs.declared.cell.Cell.{Cell};
ghost use Rattle.model.specs.Costs.{cost};
ghost use Rattle.model.specs.Timetable.{Track};
ghost use Rattle.optimality.specs.Constraints.{MeetsAll};
ghost use Rattle.optimality.specs.Walkers.{along, IsAgentWalk, MayFollow};

use crate::asked::forbid_start;
use crate::legal_steps::LegalSteps;
use crate::walk::{cost_of, meets_all};
use grid::{Cell, Map};
use optimality::{Constraint, Ends};

/// Whether a walk goes from the start to the goal, is as it is asked, and has no cell beyond the
/// one in which it comes to rest.
pub(crate) fn is_way(
    legal: &LegalSteps<'_>,
    ends: Ends,
    asked: &[Constraint],
    walk: &[Cell],
) -> bool
    ensures walker { result ≡ true → IsAgentWalk legal.now ends (along walk.now) }
    ensures meets { result ≡ true → MeetsAll asked.now (along walk.now) }
    ensures cost { result ≡ true → length walk.now ≡ cost (along walk.now) + 1 }
{
    let cost = cost_of(walk);
    if walk.len() != cost + 1 {
        return false;
    }
    if walk[0] != ends.start || walk[cost] != ends.goal {
        return false;
    }
    if !legal.map().is_passable(ends.start) || !are_steps(legal, walk) {
        return false;
    }
    meets_all(walk, asked)
}

/// Whether a walk may begin in the cell.
pub(crate) fn may_start(map: &Map, start: Cell, asked: &[Constraint]) -> bool
    ensures { result ≡ false → (goal : Cell) (track : Track)
        → IsAgentWalk map.now (record { start = start; goal = goal }) track
        → MeetsAll asked.now track → ⊥ }
{
    if !map.is_passable(start) {
        return false;
    }
    if forbid_start(asked, start) {
        return false;
    }
    true
}

/// Whether each cell may follow the one before it.
fn are_steps(legal: &LegalSteps<'_>, walk: &[Cell]) -> bool
    ensures { result ≡ true → (k : ℕ) (u v : Cell) → slice_get walk.now k ≡ Some u
        → slice_get walk.now (k + 1) ≡ Some v → MayFollow legal.now u v }
{
    for at in 1..walk.len() {
        let from = walk[at - 1];
        let to = walk[at];
        if to != from && !legal.is_step(from, to) {
            return false;
        }
    }
    true
}
