//! A walk, a cell a time, and whether it is as it is asked.
ghost use Rattle.std.specs.Prelude.{◌≡◌, ◌+◌, ◌<◌, ◌≤◌, ℕ, true};
ghost use Rattle.std.specs.Prelude.{length, slice_get, Some, None, MatchOption};
ghost use Rattle.grid.specs.declared.cell.Cell.{Cell};
ghost use Rattle.model.specs.Costs.{cost};
ghost use Rattle.model.specs.Timetable.{cell_at};
ghost use Rattle.optimality.specs.Constraints.{Meets, MeetsAll};
ghost use Rattle.optimality.specs.Walkers.{along};

use grid::Cell;
use optimality::Constraint;

/// Whether a walk is as it is asked; its cells are those at time 0 and later, and it stays in the
/// last one.
pub fn meets(walk: &[Cell], constraint: Constraint) -> bool
    ensures { result ≡ true → Meets (along walk.now) constraint }
{
    match constraint {
        Constraint::Away(time, cell) => is_elsewhere(walk, time, cell),
        Constraint::AwayFrom(time, cell) => is_away_from(walk, time, cell),
        Constraint::There(time, cell) => is_in(walk, time, cell),
        Constraint::NotTaken(time, from, to) => is_not_taken(walk, time, from, to),
        Constraint::Above(least) => (least as usize) < cost_of(walk),
        Constraint::Within(most) => cost_of(walk) <= most as usize,
    }
}

/// Whether a walk is as it is asked in all.
pub(crate) fn meets_all(walk: &[Cell], asked: &[Constraint]) -> bool
    ensures { result ≡ true → MeetsAll asked.now (along walk.now) }
{
    for constraint in asked {
        if !meets(walk, *constraint) {
            return false;
        }
    }
    true
}

/// The cell at the time; `None` where there are no cells at all.
#[inline(always)]
fn cell_of(walk: &[Cell], time: u32) -> Option<Cell>
    ensures { MatchOption result (length walk.now ≡ 0)
        (λ cell. cell_at (along walk.now) time ≡ cell) }
{
    if walk.is_empty() {
        return None;
    }
    let last = walk.len() - 1;
    Some(walk[last.min(time as usize)])
}

fn is_in(walk: &[Cell], time: u32, cell: Cell) -> bool
    ensures { result ≡ true → cell_at (along walk.now) time ≡ cell }
{
    match cell_of(walk, time) {
        Some(at) => at == cell,
        None => false,
    }
}

fn is_elsewhere(walk: &[Cell], time: u32, cell: Cell) -> bool
    ensures { result ≡ true → cell_at (along walk.now) time ≡ cell → ⊥ }
{
    match cell_of(walk, time) {
        Some(at) => at != cell,
        None => false,
    }
}

fn is_not_taken(walk: &[Cell], time: u32, from: Cell, to: Cell) -> bool
    ensures { result ≡ true → cell_at (along walk.now) time ≡ from
        → cell_at (along walk.now) (time + 1) ≡ to → ⊥ }
{
    is_elsewhere(walk, time, from) || is_elsewhere_after(walk, time, to)
}

fn is_elsewhere_after(walk: &[Cell], time: u32, cell: Cell) -> bool
    ensures { result ≡ true → cell_at (along walk.now) (time + 1) ≡ cell → ⊥ }
{
    match time.checked_add(1) {
        Some(next) => is_elsewhere(walk, next, cell),
        None => false,
    }
}

/// Whether the walk isn't in the cell at the time, nor later.
fn is_away_from(walk: &[Cell], time: u32, cell: Cell) -> bool
    ensures { result ≡ true → (later : ℕ) → time ≤ later
        → cell_at (along walk.now) later ≡ cell → ⊥ }
{
    for at in time as usize..walk.len() {
        if walk[at] == cell {
            return false;
        }
    }
    is_elsewhere(walk, time, cell)
}

/// When the walk comes to rest.
pub(crate) fn cost_of(walk: &[Cell]) -> usize
    ensures cost { result ≡ cost (along walk.now) }
    ensures limit { result ≤ length walk.now }
{
    model::laws::costs();
    let mut rest = 0;
    for at in 1..walk.len() {
        if walk[at] != walk[at - 1] {
            rest = at;
        }
    }
    rest
}

/// How many steps of a walk are as it is asked. They are tried, so no promise is made of them.
pub(crate) fn steps_allowed(walk: &[Cell], asked: &[Constraint]) -> usize {
    let mut count = walk.len().saturating_sub(1);
    for constraint in asked {
        if !meets(walk, *constraint) {
            count = count.min(steps_before(walk, *constraint));
        }
    }
    count
}

/// How many steps a walk makes before it isn't as it is asked.
fn steps_before(walk: &[Cell], constraint: Constraint) -> usize {
    match constraint {
        Constraint::Away(time, _) | Constraint::There(time, _) => {
            (time as usize).saturating_sub(1)
        }
        Constraint::NotTaken(time, _, _) => time as usize,
        Constraint::AwayFrom(time, cell) => {
            let mut count = time as usize;
            for at in count..walk.len() {
                if walk[at] == cell {
                    break;
                }
                count = at;
            }
            count.saturating_sub(1)
        }
        Constraint::Above(_) | Constraint::Within(_) => walk.len(),
    }
}
