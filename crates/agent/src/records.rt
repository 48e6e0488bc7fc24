//! The number of records on a tape, and what it says of the agent.
ghost use Rattle.std.specs.Prelude.{◌≡◌, ◌+◌, ◌*◌, ◌/◌, ◌%◌, ◌==◌, ◌<◌, ◌≤◌, [], false, length};
ghost use Rattle.model.specs.Rules.{path_cell};
ghost use Rattle.model.specs.Timetable.{Timetable};
ghost use Rattle.depgraph.specs.AgentParts.{IsPartOf};
ghost use Rattle.agent.specs.States.{held_by_tape};

use depgraph::Part;
use grid::Cell;
use model::Held;

/// The number of whole records on a tape. An agent writes two records of each move: one when it
/// begins the move, and one when it has finished it. An odd number means that the agent is moving.
#[derive(Clone, Copy, Debug)]
pub struct Records {
    pub count: u32,
}

impl Records {
    /// How many moves the agent has finished.
    #[inline(always)]
    pub fn done(self) -> u32
        ensures { result ≡ self.count / 2 }
    {
        self.count / 2
    }

    /// How many moves the agent has begun. The finished ones count too.
    #[inline(always)]
    pub fn begun(self) -> u32
        ensures { result ≡ (self.count + 1) / 2 }
    {
        self.count / 2 + self.count % 2
    }

    /// Whether the agent has begun a move that it hasn't finished.
    #[inline(always)]
    pub fn is_moving(self) -> bool
        ensures { result ≡ (self.count % 2 == 1) }
    {
        self.count % 2 == 1
    }

    /// The cells that the agent holds. `part` is its part of a graph.
    pub fn held(self, part: &Part<'_>) -> Held
        requires { self.count ≤ 2 * length part.now.needs }
        ensures { (tt : Timetable) (is : IsPartOf tt part.now)
            → result ≡ held_by_tape is.track
            (record { records = self.count; heard = []; broken = false }) }
    {
        let at = path_cell(part, self.done());
        if self.is_moving() {
            Held::Between(at, self.next_cell(part))
        } else {
            Held::At(at)
        }
    }

    /// The cell that the agent enters by its first unfinished move.
    #[inline(always)]
    pub(crate) fn next_cell(self, part: &Part<'_>) -> Cell
        requires { self.count < 2 * length part.now.needs }
        ensures { (tt : Timetable) (is : IsPartOf tt part.now)
            → result ≡ path_cell is.track (self.count / 2 + 1) }
    {
        path_cell(part, self.done() + 1)
    }
}

/// The cell with this index on the agent's path.
fn path_cell(part: &Part<'_>, index: u32) -> Cell
    requires { index ≤ length part.now.needs }
    ensures { (tt : Timetable) (is : IsPartOf tt part.now) → result ≡ path_cell is.track index }
{
    part.cell(index).unwrap()
}
