//! Whether agents may come where they must not go, decided by a board and told of no agent.
ghost use Rattle.std.specs.Prelude.{◌≡◌, ◌≤◌, length, false, IfOk};
ghost use Rattle.model.specs.Plan.{IsPassable};
ghost use Rattle.plan_text.specs.Limits.{most_agents};
ghost use Rattle.checker.specs.Moving.{ArePassable, KeepsToGround, KeepToGround};
ghost use Rattle.checker.specs.Code.Squares.{IsBoard};

use crate::board::{Square, board, ground_at, place_on};
use crate::crowd::Turns;
use grid::Map;
use plan_text::Course;
use std::alloc::{AllocError, Global};

/// Whether an agent may have a bad move. Where the answer is no, none has. It takes memory for the
/// map's board, and is much faster than to ask
/// `moved` of each act.
pub fn may_stray(alloc: Global, map: &Map, courses: &[Course]) -> Result<bool, AllocError>
    requires { ArePassable map.now courses.now }
    ensures { IfOk result (λ strays. strays ≡ false → KeepToGround map.now courses.now) }
{
    let squares = board(alloc, map)?;
    for agent in 0..courses.len() {
        if strays(map, &squares, &courses[agent]) {
            return Ok(true);
        }
    }
    Ok(false)
}

/// Whether an act leads the agent to other ground than that of its start.
fn strays(map: &Map, squares: &[Square], course: &Course) -> bool
    requires board { IsBoard map.now squares.now }
    requires start { IsPassable map.now course.now.start }
    ensures { result ≡ false → KeepsToGround map.now course.now }
{
    let turns = Turns::new(map.width() + 2, 0);
    let ground = ground_at(map, course.start());
    let mut place = place_on(map, course.start());
    for act in course.acts() {
        let turn = turns.of(*act);
        place = place + turn.ahead - turn.back;
        if squares[place as usize].ground() != ground {
            return true;
        }
    }
    false
}
