//! What a proof asks of the walks of agents.

use grid::Cell;

/// What is asked of an agent's walk.
#[derive(Clone, Copy, Debug, PartialEq, Eq)]
pub enum Constraint {
    /// It is not in the cell at the time.
    Away(u32, Cell),
    /// It is not in the cell at the time, nor later.
    AwayFrom(u32, Cell),
    /// It is in the cell at the time.
    There(u32, Cell),
    /// It doesn't go from the one cell to the other in the step from the time on.
    NotTaken(u32, Cell, Cell),
    /// It costs more than so much.
    Above(u32),
    /// It costs so much at the most.
    Within(u32),
}

/// Of whom something is asked.
#[derive(Clone, Copy, Debug, PartialEq, Eq)]
pub enum Whom {
    /// Of the agent with this number.
    Only(u32),
    /// Of all but that one.
    AllBut(u32),
}

/// A constraint, and of whom it is asked.
#[derive(Clone, Copy, Debug, PartialEq, Eq)]
pub struct Demand {
    pub whom: Whom,
    pub constraint: Constraint,
}

/// Where an agent's walk begins, and where it ends.
#[derive(Clone, Copy, Debug, PartialEq, Eq)]
pub struct Ends {
    pub start: Cell,
    pub goal: Cell,
}

/// What of a plan is to be small.
#[derive(Clone, Copy, Debug, PartialEq, Eq)]
pub enum Objective {
    /// The sum of its agents' costs.
    Cost,
    /// The greatest of them.
    Makespan,
}
