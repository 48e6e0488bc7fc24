//! Agents under way, and how a step takes them on.
ghost use Rattle.std.specs.Prelude.{◌≡◌, ◌<◌, ◌≤◌, length, true, false};
ghost use Rattle.checker.specs.Code.Crowd.{turn_by, led_to, AreMarks, AreActTurns};
ghost use Rattle.checker.specs.Code.Crowd.{AreMarksOf, AreOldMarks, IsInside, AreInside};
ghost use Rattle.checker.specs.Code.Crowd.{KeepGrounds, IsAllowed, IsActRefused, IsMarked};
ghost use Rattle.checker.specs.Code.Crowd.{AreLed, AreAllowed, AreSuspect};

use crate::board::{NOBODY, Square};
use model::Act;

/// An agent under way.
#[derive(Clone, Copy)]
pub(crate) struct Walker {
    /// The square in which it is.
    pub(crate) place: u32,
    /// The ground on which it goes.
    pub(crate) ground: u8,
    pub(crate) agent: u16,
}

/// What an act does in a step.
#[derive(Clone, Copy)]
pub(crate) struct Turn {
    /// The place grows by the one, and falls by the other.
    pub(crate) ahead: u32,
    pub(crate) back: u32,
    /// What is left in the square to which it leads.
    mark: u8,
    /// What an act in the opposite direction leaves.
    against: u8,
}

/// What each act does in a step, and the least mark of the step.
#[derive(Clone, Copy)]
pub(crate) struct Turns {
    first: u8,
    by_act: [Turn; 5],
}

impl Turns {
    /// The acts in the steps whose marks begin with the first, over rows that are so wide.
    pub(crate) fn new(wide: u32, first: u8) -> Turns
        requires { first < 50 }
        ensures first { result.first ≡ first }
        ensures turns { AreActTurns wide result }
    {
        let stay = Turn {
            ahead: 0,
            back: 0,
            mark: first + 4,
            // Which none leaves.
            against: 63,
        };
        let north = Turn {
            back: wide,
            mark: first,
            against: first + 2,
            ..stay
        };
        let east = Turn {
            ahead: 1,
            mark: first + 1,
            against: first + 3,
            ..stay
        };
        let south = Turn {
            ahead: wide,
            mark: first + 2,
            against: first,
            ..stay
        };
        let west = Turn {
            back: 1,
            mark: first + 3,
            against: first + 1,
            ..stay
        };
        Turns {
            first,
            by_act: [north, east, south, west, stay],
        }
    }

    pub(crate) fn of(&self, act: Act) -> Turn
        ensures { result ≡ turn_by self.now act }
    {
        self.by_act[act as usize]
    }
}

/// Takes all walkers a step on, each by the act in its place. Where the answer is no, nothing is
/// wrong in the step; where it is yes, two of the walkers are in one another's way, or one comes to
/// ground that isn't its own. It is compiled by itself, since its loop, which takes most of the
/// time of a check, needs all registers.
#[inline(never)]
pub(crate) fn take_step(
    turns: &Turns,
    acts: &[Act],
    walkers: &mut [Walker],
    squares: &mut [Square],
) -> bool
    requires marks { AreMarks turns.now }
    requires acts { length walkers.old ≤ length acts.now }
    requires some { 0 < turns.now.first }
    requires old { AreOldMarks turns.now.first walkers.old squares.old }
    requires inside { AreInside turns.now (length squares.old) walkers.old }
    ensures led { AreLed turns.now acts.now walkers.old walkers.new }
    ensures grounds { KeepGrounds squares.old squares.new }
    ensures allowed { result ≡ false
        → AreAllowed turns.now acts.now walkers.old squares.old (length walkers.old) }
    ensures suspect { result ≡ true → AreSuspect turns.now acts.now walkers.old squares.old }
    ensures marks { AreMarksOf turns.now.first walkers.new squares.new }
{
    // A copy of its own, which no write to a square can change: what all walkers need of it is read
    // once.
    let turns = *turns;
    let mut may_be_wrong = false;
    for place in 0..walkers.len() {
        may_be_wrong |= lead(&turns, acts[place], &mut walkers[place], squares);
    }
    may_be_wrong
}

/// Leads a walker by its act, without a branch.
fn lead(turns: &Turns, act: Act, walker: &mut Walker, squares: &mut [Square]) -> bool
    requires marks { AreMarks turns.now }
    requires inside { IsInside turns.now (length squares.old) walker.old.place }
    ensures led { walker.new ≡ record walker.old { place = led_to turns.now act walker.old.place } }
    ensures grounds { KeepGrounds squares.old squares.new }
    ensures marks { IsMarked turns.now act walker.old.place squares.old squares.new }
    ensures allowed { result ≡ false → IsAllowed turns.now act walker.old squares.old }
    ensures refused { result ≡ true → IsActRefused turns.now act walker.old squares.old }
{
    let turn = turns.of(act);
    let from = walker.place as usize;
    let to = walker.place + turn.ahead - turn.back;
    let left = squares[from];
    let entered = squares[to as usize];
    // A mark of this step stays.
    squares[from] = if left.is_of_step(turns.first) {
        left
    } else {
        Square::new(left.ground(), NOBODY)
    };
    squares[to as usize] = Square::new(entered.ground(), turn.mark);
    walker.place = to;
    (entered.ground() != walker.ground)
        | entered.is_of_step(turns.first)
        | (left.mark() == turn.against)
}
