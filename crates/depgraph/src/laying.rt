//! The paths of a plan, the visits of its cells, and what its moves wait for.
ghost use Rattle.std.specs.Prelude.{◌≡◌, IfOk};
ghost use Rattle.depgraph.specs.Code.Following.{AreFollowed};
ghost use Rattle.depgraph.specs.Code.Laying.{AreFound, AreLaidOut};
ghost use Rattle.depgraph.specs.Code.Numbers.{cells_by, AreNumbered};
ghost use Rattle.depgraph.specs.Code.Paths.{ArePaths};

use crate::following::waits_by_time;
use crate::paths::{Paths, paths_of};
use crate::placing::{Placed, place_visits};
use crate::waiting::Wait;
use checker::CheckedPlan;
use model::Visit;
use std::alloc::{AllocError, Global};

/// The plan's number, its paths, what the move into each of their cells waits for, and all visits:
/// those of each cell stand together and end there.
#[derive(Drop)]
pub(crate) struct Laid {
    pub(crate) number: u32,
    pub(crate) paths: Paths,
    pub(crate) needs: Vec<Wait>,
    pub(crate) visits: Vec<Visit>,
    pub(crate) visit_ends: Vec<u32>,
}

/// Lays out the paths and the visits of a plan, and tells what each move waits for.
pub(crate) fn lay_out(alloc: Global, plan: &CheckedPlan) -> Result<Laid, AllocError>
    ensures { IfOk result
        (λ l. AreLaidOut plan.now.timetable l.number l.paths.names.items l.paths.numbers.items
        l.paths.times.items l.paths.ends.items
        l.needs.items l.visits.items l.visit_ends.items) }
{
    let Found {
        number,
        paths,
        needs,
    } = find(alloc, plan)?;
    let placed = place_visits(
        alloc,
        &paths.times,
        &paths.ends,
        &paths.numbers,
        paths.names.len(),
    )?;
    let Placed { visits, next } = placed;
    Ok(Laid {
        number,
        paths,
        needs,
        visits,
        visit_ends: next.next,
    })
}

/// The plan's number, its paths, and what the move into each of their cells waits for.
#[derive(Drop)]
pub(crate) struct Found {
    pub(crate) number: u32,
    pub(crate) paths: Paths,
    pub(crate) needs: Vec<Wait>,
}

/// Finds the paths of a plan, and what each move waits for.
pub(crate) fn find(alloc: Global, plan: &CheckedPlan) -> Result<Found, AllocError>
    ensures number { IfOk result (λ f. f.number ≡ plan.now.timetable.number) }
    ensures numbered { IfOk result
        (λ f. AreNumbered (cells_by f.paths.names.items f.paths.numbers.items) f.paths.names.items
        f.paths.numbers.items) }
    ensures paths { IfOk result
        (λ f. ArePaths plan.now.timetable.tracks
        (cells_by f.paths.names.items f.paths.numbers.items) f.paths.times.items
        f.paths.ends.items) }
    ensures followed { IfOk result
        (λ f. AreFollowed f.paths.times.items f.paths.ends.items f.paths.numbers.items
        f.needs.items) }
    ensures found { IfOk result
        (λ f. AreFound plan.now.timetable f.number f.paths.names.items f.paths.numbers.items
        f.paths.times.items f.paths.ends.items f.needs.items) }
{
    let number = plan.number();
    let paths = paths_of(alloc, plan)?;
    let needs = waits_by_time(
        alloc,
        &paths.times,
        &paths.ends,
        &paths.numbers,
        paths.names.len(),
    )?;
    Ok(Found {
        number,
        paths,
        needs,
    })
}
