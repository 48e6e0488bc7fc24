//! How many agents faults name.
ghost use Rattle.std.specs.Prelude.{◌≡◌, ◌<◌, ◌^◌, ◌==◌, ◌||◌, ℕ, false, length, get_or, IfOk};
ghost use Rattle.checker.specs.AllFaults.{names_agent, count_of_named};
ghost use Rattle.checker.specs.Code.Marks.{count_of_marks};

use model::PlanFault;
use std::alloc::{AllocError, Global};

/// How many of so many agents one of the faults names.
pub(crate) fn count_named(
    alloc: Global,
    agents: usize,
    faults: &[PlanFault],
) -> Result<u32, AllocError>
    requires { agents < 2 ^ 32 }
    ensures { IfOk result (λ count. count ≡ count_of_named agents faults.now) }
{
    let mut marks = vec![in alloc; false; agents]?;
    for fault in faults {
        mark_named(*fault, &mut marks);
    }
    Ok(count_marks(&marks))
}

/// Marks the agents that the fault names.
fn mark_named(fault: PlanFault, marks: &mut [bool])
    ensures count { length marks.new ≡ length marks.old }
    ensures marks { (k : ℕ) → k < length marks.old
        → get_or marks.new k false ≡ (names_agent fault k || get_or marks.old k false) }
{
    match fault {
        PlanFault::BadStart(agent) | PlanFault::BadMove(agent, _) => mark(agent, marks),
        PlanFault::Vertex(first, second, _, _) | PlanFault::Swap(first, second, _) => {
            mark(first, marks);
            mark(second, marks);
        }
        PlanFault::OutOfMemory => {}
    }
}

fn mark(agent: u32, marks: &mut [bool])
    ensures count { length marks.new ≡ length marks.old }
    ensures marks { (k : ℕ) → k < length marks.old
        → get_or marks.new k false ≡ (agent == k || get_or marks.old k false) }
{
    if (agent as usize) < marks.len() {
        marks[agent as usize] = true;
    }
}

/// How many agents are marked.
fn count_marks(marks: &[bool]) -> u32
    requires { length marks.now < 2 ^ 32 }
    ensures { result ≡ count_of_marks (length marks.now) marks.now }
{
    let mut count = 0;
    for agent in 0..marks.len() {
        if marks[agent] {
            count += 1;
        }
    }
    count
}
