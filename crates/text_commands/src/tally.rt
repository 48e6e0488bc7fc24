//! How many rows there are of each kind.
ghost use Rattle.std.specs.Prelude.{◌≡◌, ◌+◌, ◌<◌, ◌≤◌, ◌^◌, ◌*◌, []};

use crate::row_line::RowLine;
use ending::Status;

/// How many rows were judged, and of each kind; of straight steps their sum and the greatest of
/// them.
#[derive(Clone, Copy)]
pub(crate) struct Tally {
    pub(crate) rows: u64,
    pub(crate) agree: u64,
    pub(crate) differ: u64,
    pub(crate) unreachable: u64,
    pub(crate) size: u64,
    pub(crate) sum: u128,
    pub(crate) greatest: u32,
    ghost few_agree: { agree ≤ rows },
    ghost few_differ: { differ ≤ rows },
    ghost few_unreachable: { unreachable ≤ rows },
    ghost few_size: { size ≤ rows },
    ghost least_sum: { sum ≤ rows * 4294967295 },
}

impl Tally {
    ghost use Rattle.text_commands.specs.Code.Tallies.{IsTally, IsTallyWith, tally_status};

    /// Of no rows.
    pub(crate) fn new() -> Tally
        ensures { IsTally [] result }
    {
        Tally {
            rows: 0,
            agree: 0,
            differ: 0,
            unreachable: 0,
            size: 0,
            sum: 0,
            greatest: 0,
        }
    }

    /// Counts one row more.
    pub(crate) fn with(&self, line: &RowLine) -> Tally
        requires { self.now.rows + 1 < 2 ^ 64 }
        ensures { IsTallyWith self.now line.now result }
    {
        Tally {
            rows: self.rows + 1,
            agree: self.agree + u64::from(line.is_agreed()),
            differ: self.differ + u64::from(line.is_otherwise()),
            unreachable: self.unreachable + u64::from(line.is_unreached()),
            size: self.size + u64::from(line.has_other_size()),
            sum: self.sum + u128::from(line.steps()),
            greatest: self.greatest.max(line.steps()),
        }
    }

    /// How many rows have no length that is right.
    pub(crate) fn bad(&self) -> u64 {
        self.differ
            .saturating_add(self.unreachable)
            .saturating_add(self.size)
    }

    /// The status that the command ends with.
    pub(crate) fn status(&self) -> Status
        ensures { result ≡ tally_status self.now }
    {
        if self.differ == 0 && (self.unreachable == 0 && self.size == 0) {
            Status::Done
        } else {
            Status::Fault
        }
    }
}
