//! Conflicts of two agents.
ghost use Rattle.std.specs.Prelude.{◌≡◌};
ghost use Rattle.checker.specs.Code.Rows.{fault_between};

use grid::Cell;
use model::PlanFault;

/// What two agents may have between them.
#[derive(Clone, Copy)]
pub(crate) enum Conflict {
    /// At the time both are in the cell.
    Vertex(u32, Cell),
    /// In the step they exchange their cells.
    Swap(u32),
}

impl Conflict {
    /// The fault of two agents that have it.
    pub(crate) fn between(self, first: u32, second: u32) -> PlanFault
        ensures { result ≡ fault_between self first second }
    {
        match self {
            Conflict::Vertex(time, cell) => PlanFault::Vertex(first, second, time, cell),
            Conflict::Swap(step) => PlanFault::Swap(first, second, step),
        }
    }
}
