//! What is asked of a walk: what it forbids in a step, and when the walk may end.
ghost use Rattle.std.specs.Prelude.{◌≡◌, ℕ, ◌+◌, ◌<◌, ◌≤◌, true, Some, slice_get};
ghost use Rattle.grid.specs.declared.cell.Cell.{Cell};
ghost use Rattle.model.specs.Costs.{cost};
ghost use Rattle.model.specs.Timetable.{Track, cell_at};
ghost use Rattle.optimality.specs.declared.constraint.Constraint.{Constraint};
ghost use Rattle.optimality.specs.Constraints.{Meets, MeetsAll};

use grid::Cell;
use optimality::Constraint;

/// Whether the step from the time on, or the cell to which it leads, is forbidden.
#[inline(always)]
pub(crate) fn is_forbidden(rules: &[Constraint], time: u32, from: Cell, to: Cell) -> bool
    ensures { result ≡ true → (track : Track)
        → ((k : ℕ) (rule : Constraint) → slice_get rules.now k ≡ Some rule → Meets track rule)
        → cell_at track time ≡ from → cell_at track (time + 1) ≡ to → ⊥ }
{
    for rule in rules {
        if forbids(*rule, time, from, to) {
            return true;
        }
    }
    false
}

#[inline(always)]
pub(crate) fn forbids(rule: Constraint, time: u32, from: Cell, to: Cell) -> bool
    ensures { result ≡ true → (track : Track) → Meets track rule → cell_at track time ≡ from
        → cell_at track (time + 1) ≡ to → ⊥ }
{
    match rule {
        Constraint::Away(at, cell) => at > 0 && at - 1 == time && to == cell,
        Constraint::AwayFrom(since, cell) => since.saturating_sub(1) <= time && to == cell,
        Constraint::There(at, cell) => at > 0 && at - 1 == time && to != cell,
        Constraint::NotTaken(at, one, other) => at == time && from == one && to == other,
        Constraint::Above(_) | Constraint::Within(_) => false,
    }
}

/// Whether it is forbidden to begin in the cell.
pub(crate) fn forbid_start(asked: &[Constraint], start: Cell) -> bool
    ensures { result ≡ true → (track : Track) → MeetsAll asked.now track
        → cell_at track 0 ≡ start → ⊥ }
{
    for constraint in asked {
        if forbids_start(*constraint, start) {
            return true;
        }
    }
    false
}

fn forbids_start(constraint: Constraint, start: Cell) -> bool
    ensures { result ≡ true → (track : Track) → Meets track constraint
        → cell_at track 0 ≡ start → ⊥ }
{
    match constraint {
        Constraint::Away(0, cell) => cell == start,
        Constraint::AwayFrom(0, cell) => cell == start,
        Constraint::There(0, cell) => cell != start,
        _ => false,
    }
}

/// What a walk to the goal costs at least that is as it is asked; the greatest number where there
/// is none.
pub(crate) fn lowest(asked: &[Constraint], goal: Cell) -> u32
    ensures { (track : Track) → MeetsAll asked.now track → cell_at track (cost track) ≡ goal
        → result ≤ cost track }
{
    let mut lowest = 0;
    for constraint in asked {
        lowest = lowest.max(low(*constraint, goal));
    }
    lowest
}

fn low(constraint: Constraint, goal: Cell) -> u32
    ensures { (track : Track) → Meets track constraint → cell_at track (cost track) ≡ goal
        → result ≤ cost track }
{
    model::laws::costs();
    match constraint {
        Constraint::Away(at, cell) if cell == goal => at.saturating_add(1),
        Constraint::AwayFrom(_, cell) if cell == goal => u32::MAX,
        Constraint::There(at, cell) if cell != goal => at.saturating_add(1),
        Constraint::NotTaken(at, one, other) if one == goal && other == goal => {
            at.saturating_add(1)
        }
        Constraint::Above(least) => least.saturating_add(1),
        _ => 0,
    }
}

/// What a walk costs at most that costs less than the limit and is as it is asked.
pub(crate) fn highest(asked: &[Constraint], limit: u32) -> u32
    requires { 0 < limit }
    ensures below { result < limit }
    ensures most { (track : Track) → MeetsAll asked.now track → cost track < limit
        → cost track ≤ result }
{
    let mut highest = limit - 1;
    for constraint in asked {
        highest = high(*constraint, highest);
    }
    highest
}

fn high(constraint: Constraint, highest: u32) -> u32
    ensures less { result ≤ highest }
    ensures most { (track : Track) → Meets track constraint → cost track ≤ highest
        → cost track ≤ result }
{
    match constraint {
        Constraint::Within(most) => highest.min(most),
        _ => highest,
    }
}
