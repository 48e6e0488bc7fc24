//! Why a plan is not accepted.
ghost use Rattle.std.specs.Prelude.{◌≡◌, Some};
ghost use Rattle.text_io.specs.FaultWords.{words_of, words_text};
ghost use Rattle.model.specs.FaultWords.{plan_fault_words};

use grid::Cell;
use std::fmt;
use text_io::{Failure, FaultName, FaultWords, Origin};
use thiserror::Error;

/// A fault of a plan: agents, then the step or the time, and the cell (Stern et al. 2019, "Types of
/// conflicts").
#[derive(Clone, Copy, Debug, PartialEq, Eq, Error)]
pub enum PlanFault {
    /// The agent's start is off the map or blocked.
    BadStart(u32),
    /// The agent's act in this step is no wait, and no legal straight step.
    BadMove(u32, u32),
    /// Both agents stand in the cell at this time.
    Vertex(u32, u32, u32, Cell),
    /// In this step each of the agents enters the cell that the other leaves.
    Swap(u32, u32, u32),
    OutOfMemory,
}

impl PlanFault {
    /// The words in which it is told.
    pub fn words(self) -> FaultWords
        ensures { words_of result ≡ plan_fault_words self }
    {
        let words = match self {
            PlanFault::BadStart(agent) => FaultWords::new(FaultName::BadStart, &[u64::from(agent)]),
            PlanFault::BadMove(agent, step) => FaultWords::new(
                FaultName::BadMove,
                &[u64::from(agent), u64::from(step)],
            ),
            PlanFault::Vertex(first, second, time, cell) => {
                let (first, second, time) = (u64::from(first), u64::from(second), u64::from(time));
                FaultWords::new(
                    FaultName::Vertex,
                    &[first, second, time, u64::from(cell.x), u64::from(cell.y)],
                )
            }
            PlanFault::Swap(first, second, step) => FaultWords::new(
                FaultName::Swap,
                &[u64::from(first), u64::from(second), u64::from(step)],
            ),
            PlanFault::OutOfMemory => Failure::OutOfMemory.words(),
        };
        words.of(Origin::Plan)
    }
}

impl fmt::Display for PlanFault {
    ghost output = { λ fault. Some (words_text (plan_fault_words fault)) };

    fn fmt<W: fmt::Write>(&self, f: &mut fmt::Formatter<W>) -> fmt::Result {
        self.words().fmt(f)
    }
}
