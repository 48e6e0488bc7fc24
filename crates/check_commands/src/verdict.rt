//! What a plan comes to, and its text.
ghost use Rattle.std.specs.Prelude.{◌≡◌, length, string_bytes, IfOk};
ghost use Rattle.model.specs.Costs.{sum_of_costs, makespan};
ghost use Rattle.serde_json.specs.View.{view};
ghost use Rattle.check_commands.specs.Code.Verdicts.{accepted_data, rejected_data, verdict_line};
ghost use Rattle.check_commands.specs.VerdictText.{IsPlain, IsPlainText, accepted_json};
ghost use Rattle.check_commands.specs.VerdictText.{rejected_json, verdict_json_text};

use checker::CheckedPlan;
use serde_json::{Value, json};
use std::alloc::{AllocError, Global};

/// What a plan comes to.
#[derive(Clone, Copy, Debug, PartialEq, Eq)]
pub enum Verdict<'a> {
    /// The plan is accepted: how many agents it has, the sum of their costs, and the greatest of
    /// them.
    Accepted {
        agents: u32,
        cost: u64,
        makespan: u32,
    },
    /// The plan is rejected, for this fault.
    Rejected(&'a str),
}

impl Verdict<'_> {
    /// The verdict on a plan that is accepted.
    pub(crate) fn accepted(plan: &CheckedPlan) -> Verdict<'static>
        ensures { result ≡ Verdict.Accepted (length plan.now.timetable.tracks)
            (sum_of_costs plan.now.timetable) (makespan plan.now.timetable) }
    {
        Verdict::Accepted {
            agents: plan.agents(),
            cost: plan.sum_of_costs(),
            makespan: plan.makespan(),
        }
    }
}

/// The verdict as JSON, without an LF. A fault is told in letters, digits and spaces, of which none
/// is escaped.
pub fn verdict_json(alloc: Global, verdict: &Verdict<'_>) -> Result<String, AllocError>
    requires { IsPlain verdict.now }
    ensures { IfOk result (λ text. string_bytes text ≡ verdict_json_text verdict.now) }
{
    match *verdict {
        Verdict::Accepted {
            agents,
            cost,
            makespan,
        } => accepted_json(alloc, agents, cost, makespan),
        Verdict::Rejected(fault) => rejected_json(alloc, fault),
    }
}

fn accepted_json(alloc: Global, agents: u32, cost: u64, makespan: u32) -> Result<String, AllocError>
    ensures { IfOk result (λ text. string_bytes text ≡ accepted_json agents cost makespan) }
{
    accepted_value(alloc, agents, cost, makespan)?.to_string(alloc)
}

fn accepted_value(alloc: Global, agents: u32, cost: u64, makespan: u32) -> Result<Value, AllocError>
    ensures { IfOk result (λ value. view value ≡ accepted_data agents cost makespan) }
{
    json!(in alloc; {"accepted": true, "agents": agents, "cost": cost, "makespan": makespan})
}

fn rejected_json(alloc: Global, fault: &str) -> Result<String, AllocError>
    requires { IsPlainText fault.now }
    ensures { IfOk result (λ text. string_bytes text ≡ rejected_json fault.now) }
{
    rejected_value(alloc, fault)?.to_string(alloc)
}

fn rejected_value(alloc: Global, fault: &str) -> Result<Value, AllocError>
    ensures { IfOk result (λ value. view value ≡ rejected_data fault.now) }
{
    json!(in alloc; {"accepted": false, "fault": fault})
}

/// The line of a verdict, in words or as JSON.
pub(crate) fn verdict_line(
    alloc: Global,
    verdict: &Verdict<'_>,
    json: bool,
) -> Result<String, AllocError>
    requires { IsPlain verdict.now }
    ensures { IfOk result (λ line. string_bytes line ≡ verdict_line json verdict.now) }
{
    if json {
        let text = verdict_json(alloc, verdict)?;
        return format!(in alloc; "{text}\n");
    }
    match *verdict {
        Verdict::Accepted {
            agents,
            cost,
            makespan,
        } => format!(in alloc; "accepted agents {agents} cost {cost} makespan {makespan}\n"),
        Verdict::Rejected(fault) => format!(in alloc; "rejected {fault}\n"),
    }
}
