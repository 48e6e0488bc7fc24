//! The lines before those of the agents.
ghost use Rattle.std.specs.Prelude.{◌≡◌, ◌≤◌, codes, length, MatchResult};
ghost use Rattle.text_io.specs.Reading.{at_line_feed};
ghost use Rattle.plan_text.specs.Limits.{most_agents};
ghost use Rattle.plan_text.specs.PlanText.{SaysNumber, header};
ghost use Rattle.plan_text.specs.PlanTextFault.{header_due, number_due, agents_due};
ghost use Rattle.plan_text.specs.PlanTextFault.{longest_plan_line, HasPlanTextFault};

use crate::PlanTextFault;
use crate::plan::MOST_AGENTS;
use text_io::saturated_numeral;

/// Refuses a line that is not the header.
pub(crate) fn read_header(line: &[u8], number: u64) -> Result<(), PlanTextFault>
    requires { length line.now ≤ longest_plan_line }
    ensures { MatchResult result (λ _. line.now ≡ header)
        (λ fault. HasPlanTextFault fault at_line_feed header_due number line.now) }
{
    if line != b"mapf-plan 1".as_slice() {
        return Err(PlanTextFault::BadHeader(number));
    }
    Ok(())
}

/// The plan's number, from its line.
pub(crate) fn read_number(line: &[u8], number: u64) -> Result<u32, PlanTextFault>
    requires { length line.now ≤ longest_plan_line }
    ensures { MatchResult result (λ n. SaysNumber (codes "number ") n line.now)
        (λ fault. HasPlanTextFault fault at_line_feed number_due number line.now) }
{
    let Some(digits) = line.strip_prefix(b"number ") else {
        return Err(PlanTextFault::BadHeader(number));
    };
    match saturated_numeral(digits) {
        Some(value) if value <= 4_294_967_295 => Ok(value as u32),
        _ => Err(PlanTextFault::BadNumber(number)),
    }
}

/// How many agents there are, from the line that says it.
pub(crate) fn read_agents(line: &[u8], number: u64) -> Result<u32, PlanTextFault>
    requires { length line.now ≤ longest_plan_line }
    ensures { MatchResult result (λ n. SaysNumber (codes "agents ") n line.now × (n ≤ most_agents))
        (λ fault. HasPlanTextFault fault at_line_feed agents_due number line.now) }
{
    let Some(digits) = line.strip_prefix(b"agents ") else {
        return Err(PlanTextFault::BadHeader(number));
    };
    let Some(agents) = saturated_numeral(digits) else {
        return Err(PlanTextFault::BadNumber(number));
    };
    if agents > MOST_AGENTS as u64 {
        return Err(PlanTextFault::TooMany(number));
    }
    Ok(agents as u32)
}
