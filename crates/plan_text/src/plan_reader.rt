//! Reading the text of a plan.
ghost use Rattle.std.specs.Prelude.{◌≡◌, ℕ, ◌≤◌, List, [], length, MatchResult, Decides};
ghost use Rattle.text_io.specs.Counted.{counted_inner, failures_of};
ghost use Rattle.text_io.specs.Source.{source_reader};
ghost use Rattle.text_io.specs.Lines.{HasTaken};
ghost use Rattle.text_io.specs.Reading.{ReadsText};
ghost use Rattle.plan_text.specs.Limits.{IsPlan};
ghost use Rattle.plan_text.specs.PlanText.{PlanText};
ghost use Rattle.plan_text.specs.PlanTextFault.{IsLineDue, longest_plan_line};
ghost use Rattle.plan_text.specs.PlanTextFault.{PlanTextFaultAt, plan_outcome};
ghost use Rattle.plan_text.specs.Code.PlanLines.{due_seen, PlanAdds, PlanRefuses, HasReadPlan};

use crate::agent_line::read_agent;
use crate::header_lines::{read_agents, read_header, read_number};
use crate::{Plan, PlanTextFault, PushFault};
use std::alloc::Global;
use std::io::Read;
use text_io::{Counted, LARGE_PIECE, Source, TakenLine};

/// A line of a plan has no more bytes before its LF.
const LONGEST_LINE: usize = 65_553;

/// Reads a plan, the whole text. The first fault is answered; a reader that fails is not read
/// again, and the answer is then the fault that its bytes decide, or else `ReadFailed`.
pub fn read_plan<R: Read>(alloc: Global, reader: &mut Counted<R>) -> Result<Plan, PlanTextFault>
    ensures { ReadsText PlanText PlanTextFaultAt (R.remaining (counted_inner reader.old))
        (R.remaining (counted_inner reader.new))
        (failures_of reader.old) (failures_of reader.new) (plan_outcome result) }
{
    let mut source = Source::new(reader);
    read_lines(alloc, &mut source)
}

/// Reads the lines of a source of which nothing was taken.
fn read_lines<R: Read>(
    alloc: Global,
    source: &mut Source<'_, R, LARGE_PIECE>,
) -> Result<Plan, PlanTextFault>
    requires { HasTaken R.remaining (source_reader source.old) source.old [] }
    ensures same_reader { source.new.reader.ghost_name ≡ source.old.reader.ghost_name }
    ensures reads { ReadsText PlanText PlanTextFaultAt
        (R.remaining (counted_inner (source_reader source.old)))
        (R.remaining (counted_inner (source_reader source.new)))
        (failures_of (source_reader source.old)) (failures_of (source_reader source.new))
        (plan_outcome result) }
{
    text_io::laws::places();
    let mut room = [0; LONGEST_LINE];
    let mut progress = Progress::new(alloc);
    let mut number = 1u64;
    'lines: while progress.is_line_due() {
        match source.take_line(&mut room) {
            TakenLine::WithLineFeed(count) => {
                progress.add_line(alloc, &room[..count], number)?;
                number = number.saturating_add(1);
            }
            TakenLine::AtEnd(_) => return Err(PlanTextFault::Unfinished(number)),
            TakenLine::TooLong => return Err(PlanTextFault::TooMany(number)),
            TakenLine::Failed => return Err(PlanTextFault::ReadFailed),
        }
    }
    match source.take_line(&mut room[..0]) {
        TakenLine::AtEnd(_) => Ok(progress.plan),
        TakenLine::Failed => Err(PlanTextFault::ReadFailed),
        TakenLine::WithLineFeed(_) | TakenLine::TooLong => Err(PlanTextFault::TextAfter(number)),
    }
}

/// The line that is due.
#[derive(Clone, Copy)]
enum Due {
    Header,
    Number,
    Agents,
    /// So many agents are left.
    Agent(u32),
}

/// What the lines so far said.
#[derive(Drop)]
struct Progress {
    due: Due,
    plan: Plan,
}

impl Progress {
    fn new(alloc: Global) -> Progress
        ensures read { HasReadPlan (due_seen result.due result.plan) result.plan [] }
    {
        Progress {
            due: Due::Header,
            plan: Plan::new(alloc, 0),
        }
    }

    fn is_line_due(&self) -> bool
        ensures { Decides result (IsLineDue (due_seen self.now.due self.now.plan)) }
    {
        !matches!(self.due, Due::Agent(0))
    }

    /// Adds a line that is due.
    fn add_line(&mut self, alloc: Global, line: &[u8], number: u64) -> Result<(), PlanTextFault>
        requires due { IsLineDue (due_seen self.old.due self.old.plan) }
        requires short { length line.now ≤ longest_plan_line }
        ensures { (lines : List (List ℕ))
            → HasReadPlan (due_seen self.old.due self.old.plan) self.old.plan lines
            → MatchResult result
            (λ _. PlanAdds (due_seen self.old.due self.old.plan) self.old.plan line.now
            (due_seen self.new.due self.new.plan) self.new.plan)
            (PlanRefuses (due_seen self.old.due self.old.plan) number line.now) }
    {
        match self.due {
            Due::Header => {
                read_header(line, number)?;
                self.due = Due::Number;
            }
            Due::Number => {
                self.plan = Plan::new(alloc, read_number(line, number)?);
                self.due = Due::Agents;
            }
            Due::Agents => self.due = Due::Agent(read_agents(line, number)?),
            Due::Agent(left) => {
                let (start, acts) = read_agent(alloc, line, number)?;
                match self.plan.push(start, acts) {
                    Ok(()) => {}
                    Err(PushFault::TooMany) => return Err(PlanTextFault::TooMany(number)),
                    Err(PushFault::OutOfMemory) => return Err(PlanTextFault::OutOfMemory),
                }
                self.due = Due::Agent(left - 1);
            }
        }
        Ok(())
    }
}
