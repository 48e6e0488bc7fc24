//! Searching for a shortest walk.
ghost use Rattle.walks.specs.Search.{FailsSearch};

use crate::approach::approach;
use crate::certificate::{Proposal, is_on};
use crate::field::Field;
use crate::flood::flood;
use crate::search_fault::SearchFault;
use crate::walk_back::walk_back;
use grid::{Cell, Map};
use std::alloc::{AllocError, Global};

/// A walk from one cell to another that should be shortest, empty where no walk leads there, and a
/// table of what should be the shortest lengths from the first to each cell near it, and no greater
/// than them elsewhere. Whether they are is for the certificate to say.
pub fn search(alloc: Global, map: &Map, start: Cell, goal: Cell) -> Result<Proposal, SearchFault>
    ensures { FailsSearch map.now start goal result }
{
    if !is_on(map, start) || !is_on(map, goal) {
        return Err(SearchFault::OutOfRange);
    }
    Ok(propose(alloc, map, start, goal)?)
}

fn propose(alloc: Global, map: &Map, start: Cell, goal: Cell) -> Result<Proposal, AllocError> {
    if let Some(proposal) = propose_toward(alloc, map, start, goal)? {
        return Ok(proposal);
    }
    let mut field = Field::around(alloc, map, start)?;
    flood(alloc, &mut field, start, goal)?;
    found(alloc, map, field, goal, None)
}

/// What a search toward the goal finds, if the distance to it helps.
fn propose_toward(
    alloc: Global,
    map: &Map,
    start: Cell,
    goal: Cell,
) -> Result<Option<Proposal>, AllocError> {
    let mut field = Field::around(alloc, map, start)?;
    if !approach(alloc, &mut field, start, goal)? {
        return Ok(None);
    }
    Ok(Some(found(alloc, map, field, goal, Some(goal))?))
}

/// What a search found; the goal is given as the heading where the search went by the distance to
/// it.
fn found(
    alloc: Global,
    map: &Map,
    field: Field,
    goal: Cell,
    heading: Option<Cell>,
) -> Result<Proposal, AllocError> {
    Ok(Proposal {
        walk: walk_back(alloc, &field, goal, map.characters().len())?,
        table: field.into_table(goal, heading),
    })
}
