//! Why a plan does not solve the first rows of a scenario.
ghost use Rattle.std.specs.Prelude.{◌≡◌, Some};
ghost use Rattle.text_io.specs.FaultWords.{words_of, words_text};
ghost use Rattle.fitting.specs.FaultWords.{fit_fault_words};

use std::fmt;
use text_io::{FaultName, FaultWords, Origin};
use thiserror::Error;

/// The first thing that differs: numbers first, and then row by row, counted from 0, the size, the
/// start and the goal.
#[derive(Clone, Copy, Debug, PartialEq, Eq, Error)]
pub enum FitFault {
    /// There are fewer rows than were asked for.
    TooFewRows,
    /// There are more or fewer agents.
    AgentCount,
    /// The agent with this number starts elsewhere.
    StartDiffers(u32),
    /// It comes to rest elsewhere.
    GoalDiffers(u32),
    /// The row with this number is for a map of another size.
    SizeDiffers(u32),
}

impl FitFault {
    /// The words in which it is told.
    pub fn words(self) -> FaultWords
        ensures { words_of result ≡ fit_fault_words self }
    {
        let words = match self {
            FitFault::TooFewRows => FaultWords::new(FaultName::TooFewRows, &[]),
            FitFault::AgentCount => FaultWords::new(FaultName::AgentCount, &[]),
            FitFault::StartDiffers(agent) => FaultWords::new(
                FaultName::StartDiffers,
                &[u64::from(agent)],
            ),
            FitFault::GoalDiffers(agent) => FaultWords::new(
                FaultName::GoalDiffers,
                &[u64::from(agent)],
            ),
            FitFault::SizeDiffers(row) => FaultWords::new(
                FaultName::SizeDiffers,
                &[u64::from(row)],
            ),
        };
        words.of(Origin::Plan)
    }
}

impl fmt::Display for FitFault {
    ghost output = { λ fault. Some (words_text (fit_fault_words fault)) };

    fn fmt<W: fmt::Write>(&self, f: &mut fmt::Formatter<W>) -> fmt::Result {
        self.words().fmt(f)
    }
}
