//! What a search has found, if what it left proves it.
ghost use Rattle.std.specs.Prelude.{◌≡◌, ◌+◌, IfOk, IsTrue, Some};
ghost use Rattle.walks.specs.Walk.{IsOn};
ghost use Rattle.least_steps.specs.Code.Estimate.{least_number};
ghost use Rattle.least_steps.specs.Code.Reaching.{IsFound, IsLeastNumber};
ghost use Rattle.least_steps.specs.Code.Waiting.{AreBehind, AreSound, IsBehind, IsFar, IsInBucket};
ghost use Rattle.least_steps.specs.Code.Waiting.{IsPlace, IsSearch, IsSoundList, IsOpenPlace};

use crate::distance::distance;
use crate::open_list::{Open, OpenList};
use crate::reached::Reached;
use crate::step_fault::StepFault;
use grid::Cell;
use walks::STRAIGHT;

/// The least number of a walk to the goal.
pub(crate) fn answer(
    reached: &Reached,
    waiting: &OpenList,
    start: Cell,
    goal: Cell,
) -> Result<Option<u64>, StepFault>
    requires start { reached.now.start ≡ start }
    requires on { IsOn reached.now.map start }
    requires goal { IsOn reached.now.map goal }
    requires search { IsSearch reached.now waiting.now goal }
    ensures { IfOk result
        (IsLeastNumber reached.now.map reached.now.aslant reached.now.start goal) }
{
    let found = reached.number(goal);
    if is_shortest(reached, start, goal, found) {
        return Ok(found);
    }
    if are_all_behind(reached, waiting, goal, found) {
        Ok(found)
    } else {
        Err(StepFault::NotTight)
    }
}

/// Whether no walk is shorter than the one that was found, not on a map without obstacles either.
#[inline(always)]
pub(crate) fn is_shortest(reached: &Reached, start: Cell, goal: Cell, found: Option<u64>) -> bool
    ensures { IsTrue result → found ≡ Some (6625109 + least_number reached.now.aslant goal start) }
{
    found == Some(STRAIGHT + distance(reached.is_aslant(), goal, start))
}

/// Whether no walk through a place that waits comes to the goal by a lesser number than was found.
fn are_all_behind(reached: &Reached, waiting: &OpenList, goal: Cell, found: Option<u64>) -> bool
    requires sound { IsSoundList reached.now waiting.now }
    requires found { IsFound reached.now.map reached.now.base reached.now.marks goal found }
    ensures { IsTrue result → (p : Open) → IsOpenPlace waiting.entry.now p
        → IsBehind reached.now goal p }
{
    if !are_behind(reached, &waiting.now, goal, found) {
        return false;
    }
    if !are_behind(reached, &waiting.next, goal, found) {
        return false;
    }
    if !are_behind(reached, &waiting.later, goal, found) {
        return false;
    }
    are_buckets_behind(reached, &waiting.buckets, goal, found)
}

fn are_buckets_behind(
    reached: &Reached,
    buckets: &[Vec<Open>],
    goal: Cell,
    found: Option<u64>,
) -> bool
    requires sound { (p : Open) → IsInBucket buckets.now p → IsPlace reached.now p }
    requires found { IsFound reached.now.map reached.now.base reached.now.marks goal found }
    ensures { IsTrue result → (p : Open) → IsInBucket buckets.now p → IsBehind reached.now goal p }
{
    for bucket in buckets {
        if !are_behind(reached, bucket, goal, found) {
            return false;
        }
    }
    true
}

fn are_behind(reached: &Reached, places: &[Open], goal: Cell, found: Option<u64>) -> bool
    requires sound { AreSound reached.now places.now }
    requires found { IsFound reached.now.map reached.now.base reached.now.marks goal found }
    ensures { IsTrue result → AreBehind reached.now goal places.now }
{
    for place in places {
        if !is_behind(reached, *place, goal, found) {
            return false;
        }
    }
    true
}

/// Whether the place has another number by now, or is too far.
fn is_behind(reached: &Reached, place: Open, goal: Cell, found: Option<u64>) -> bool
    requires place { IsPlace reached.now place }
    requires found { IsFound reached.now.map reached.now.base reached.now.marks goal found }
    ensures { IsTrue result → IsBehind reached.now goal place }
{
    !reached.has(place) || is_far(reached, place, goal, found)
}

/// Whether a walk to the goal was found that is no longer than any through the place.
#[inline(always)]
pub(crate) fn is_far(reached: &Reached, place: Open, goal: Cell, found: Option<u64>) -> bool
    requires { IsFound reached.now.map reached.now.base reached.now.marks goal found }
    ensures { IsTrue result → IsFar reached.now goal place.cell place.number }
{
    match found {
        Some(number) => number
            <= place
                .number
                .saturating_add(distance(reached.is_aslant(), goal, place.cell)),
        None => false,
    }
}
