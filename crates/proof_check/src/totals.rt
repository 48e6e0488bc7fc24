//! What numbers of agents come to.
ghost use Rattle.std.specs.Prelude.{◌≡◌, ◌<◌, ◌≤◌, MatchOption, sum};
ghost use Rattle.optimality.specs.Judging.{greatest_number, objective_of};

use optimality::Objective;

/// What the numbers come to together, if that is below a bound.
pub(crate) fn total_below(objective: Objective, numbers: &[u32], bound: u32) -> Option<u32>
    ensures { MatchOption result (bound ≤ objective_of objective numbers.now)
        (λ total. (total ≡ objective_of objective numbers.now) × (total < bound)) }
{
    match objective {
        Objective::Cost => sum_below(numbers, bound),
        Objective::Makespan => greatest_below(numbers, bound),
    }
}

/// From what number on another one makes the total as much as a limit, beside this one.
pub(crate) fn limit_beside(objective: Objective, limit: u32, number: u32) -> u32 {
    match objective {
        Objective::Cost => limit.saturating_sub(number),
        Objective::Makespan if number >= limit => 0,
        Objective::Makespan => limit,
    }
}

fn sum_below(numbers: &[u32], bound: u32) -> Option<u32>
    ensures { MatchOption result (bound ≤ sum numbers.now) (λ total. (total ≡ sum numbers.now)
        × (total < bound)) }
{
    if bound == 0 {
        return None;
    }
    let mut total = 0u32;
    for number in numbers {
        if *number >= bound - total {
            return None;
        }
        total += *number;
    }
    Some(total)
}

fn greatest_below(numbers: &[u32], bound: u32) -> Option<u32>
    ensures { MatchOption result (bound ≤ greatest_number numbers.now)
        (λ total. (total ≡ greatest_number numbers.now) × (total < bound)) }
{
    if bound == 0 {
        return None;
    }
    let mut greatest = 0u32;
    for number in numbers {
        if *number >= bound {
            return None;
        }
        greatest = greatest.max(*number);
    }
    Some(greatest)
}
