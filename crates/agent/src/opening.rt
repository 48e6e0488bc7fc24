//! Opening a tape: its whole records have to be those that are due.
ghost use Rattle.std.specs.Prelude.{◌≡◌, ◌*◌, ◌+◌, ◌<◌, ◌≤◌, ℕ, length, OnOk, IfErr};
ghost use Rattle.model.specs.History.{record_length};
ghost use Rattle.agent.specs.Opening.{Gives, HasRead, IsRecordFault};
ghost use Rattle.agent.specs.Records.{due_record, record_at, AreDue};
ghost use Rattle.agent.specs.Tape.{MayRead, IsKept, whole_records};
ghost use Rattle.agent.specs.Code.Stops.{StopsAtRecord};

use crate::record::{Difference, compare, due_record};
use crate::refusal::OpenFault;
use crate::tape::{RECORD_LENGTH, RECORD_SIZE, Tape};

/// Reads the first records, up to one that is not the one due.
pub(crate) fn read_records<T: Tape>(
    tape: &mut T,
    plan: u32,
    agent: u16,
    records: u32,
) -> Result<(), OpenFault>
    requires within { records ≤ whole_records (T.state tape.old) }
    requires limit { records ≤ 2 * 65535 }
    ensures due { OnOk result (AreDue plan agent (T.state tape.old).contents records) }
    ensures reads { OnOk result (HasRead T.may_read tape.old records tape.new) }
    ensures stops { IfErr result
        (StopsAtRecord T.state T.may_read plan agent records tape.old tape.new) }
    ensures kept { IsKept (T.state tape.old) (T.state tape.new) }
{
    for number in 0..records {
        check_record(tape, plan, agent, number)?;
    }
    Ok(())
}

/// Reads a record, and compares it with the one that is due.
fn check_record<T: Tape>(tape: &mut T, plan: u32, agent: u16, number: u32) -> Result<(), OpenFault>
    requires within { MayRead (T.state tape.old) (record_length * number) }
    requires limit { number < 2 * 65535 }
    ensures due { OnOk result (record_at (T.state tape.old).contents number
        ≡ due_record plan agent number) }
    ensures gives { OnOk result (Gives T.may_read number tape.old tape.new) }
    ensures fault { IfErr result
        (IsRecordFault T.may_read (due_record plan agent number)
        (record_at (T.state tape.old).contents number) number tape.old tape.new) }
    ensures kept { IsKept (T.state tape.old) (T.state tape.new) }
{
    let mut bytes = [0u8; RECORD_SIZE];
    if tape.read_at(RECORD_LENGTH * number, &mut bytes).is_err() {
        return Err(OpenFault::TapeFailed);
    }
    match compare(&bytes, &due_record(plan, agent, number)) {
        None => Ok(()),
        Some(Difference::Damaged) => Err(OpenFault::Damaged(number)),
        Some(Difference::WrongPlan) => Err(OpenFault::WrongPlan(number)),
        Some(Difference::WrongAgent) => Err(OpenFault::WrongAgent(number)),
    }
}
