//! What a leaf of a proof that is too low says to people.
use grid::Cell;
use optimality::{Constraint, Objective};
use proof_check::{AgentAtLeaf, LowLeaf};
use std::alloc::{AllocError, Global};

/// So many agents are shown, and so much of what is asked of each.
const MOST_AGENTS: usize = 20;

const MOST_ASKED: usize = 20;

/// No line has more columns, but for a number of an agent that is longer.
const COLUMNS: usize = 80;

/// What the agents cost at least at a leaf, and what is asked of them there, in lines.
pub fn leaf_text(alloc: Global, leaf: &LowLeaf) -> Result<String, AllocError> {
    let mut text = String::new(alloc);
    put_agents(alloc, leaf, &mut text)?;
    put_total(alloc, leaf, &mut text)?;
    Ok(text)
}

/// What the agents cost at least together.
pub fn least_cost(leaf: &LowLeaf) -> u64 {
    let mut all = Group::new();
    for agent in &leaf.agents {
        all.add(leaf.objective, agent.least);
    }
    all.cost
}

/// Agents that are taken together: how many, and what they cost at least.
#[derive(Clone, Copy)]
struct Group {
    count: u64,
    cost: u64,
}

impl Group {
    fn new() -> Group {
        Group { count: 0, cost: 0 }
    }

    fn add(&mut self, objective: Objective, least: u32) {
        self.count = self.count.saturating_add(1);
        self.cost = match objective {
            Objective::Cost => self.cost.saturating_add(u64::from(least)),
            Objective::Makespan => self.cost.max(u64::from(least)),
        };
    }
}

/// Puts a line for each of the first agents of which something is asked, or of all where they are
/// few, and two for the others.
fn put_agents(alloc: Global, leaf: &LowLeaf, text: &mut String) -> Result<(), AllocError> {
    let are_few = leaf.agents.len() <= MOST_AGENTS;
    let (mut asked, mut free) = (Group::new(), Group::new());
    let mut shown = 0usize;
    for (number, agent) in leaf.agents.iter().enumerate() {
        if agent.asked.is_empty() && !are_few {
            free.add(leaf.objective, agent.least);
        } else if shown < MOST_AGENTS {
            put_agent(alloc, number, agent, text)?;
            shown = shown.saturating_add(1);
        } else {
            asked.add(leaf.objective, agent.least);
        }
    }
    put_group(
        alloc,
        ["Something is asked of", "other agent"],
        leaf.objective,
        asked,
        text,
    )?;
    put_group(
        alloc,
        ["Nothing is asked of", "agent"],
        leaf.objective,
        free,
        text,
    )
}

/// Puts what is asked of an agent, and what it costs at least.
fn put_agent(
    alloc: Global,
    number: usize,
    agent: &AgentAtLeaf,
    text: &mut String,
) -> Result<(), AllocError> {
    let start = text.len();
    let least = agent.least;
    text.push_str(format!(in alloc; "Agent {number} costs at least {least}:")?.as_str())?;
    if agent.asked.is_empty() {
        text.push_str(" nothing is asked of it")?;
    } else {
        put_asked(alloc, &agent.asked, start, text)?;
    }
    text.push_str(".\n")
}

/// Puts what is asked of an agent, behind what its line says since this place.
fn put_asked(
    alloc: Global,
    asked: &[Constraint],
    start: usize,
    text: &mut String,
) -> Result<(), AllocError> {
    let mut start = start;
    for (place, constraint) in asked.iter().take(MOST_ASKED).enumerate() {
        if place > 0 {
            text.push_str(";")?;
        }
        start = put_part(words_of(alloc, *constraint)?.as_str(), start, text)?;
    }
    let more = asked.len().saturating_sub(MOST_ASKED);
    if more > 0 {
        text.push_str(";")?;
        put_part(format!(in alloc; "and {more} more")?.as_str(), start, text)?;
    }
    Ok(())
}

/// Puts a part of a line that begins at this place, on a new one where there is no room for it and
/// a mark behind it. The answer is where the line begins then.
fn put_part(part: &str, start: usize, text: &mut String) -> Result<usize, AllocError> {
    let used = text.len().saturating_sub(start);
    let wanted = part.len().saturating_add(2);
    if wanted <= COLUMNS.saturating_sub(used) {
        text.push_str(" ")?;
        text.push_str(part)?;
        return Ok(start);
    }
    text.push_str("\n")?;
    let next = text.len();
    text.push_str("  ")?;
    text.push_str(part)?;
    Ok(next)
}

fn words_of(alloc: Global, constraint: Constraint) -> Result<String, AllocError> {
    match constraint {
        Constraint::Away(t, Cell { x, y }) => format!(in alloc; "it is not in {x} {y} at time {t}"),
        Constraint::AwayFrom(t, Cell { x, y }) => {
            format!(in alloc; "it is not in {x} {y} at time {t} or later")
        }
        Constraint::There(t, Cell { x, y }) => format!(in alloc; "it is in {x} {y} at time {t}"),
        Constraint::NotTaken(t, Cell { x, y }, Cell { x: u, y: v }) => {
            format!(in alloc; "it does not go from {x} {y} to {u} {v} in step {t}")
        }
        Constraint::Above(cost) => format!(in alloc; "its cost is above {cost}"),
        Constraint::Within(cost) => format!(in alloc; "its cost is at most {cost}"),
    }
}

/// Puts what agents that aren't shown cost at least.
fn put_group(
    alloc: Global,
    words: [&str; 2],
    objective: Objective,
    group: Group,
    text: &mut String,
) -> Result<(), AllocError> {
    let Group { count, cost } = group;
    if count == 0 {
        return Ok(());
    }
    let [asked, agent] = words;
    let end = if count == 1 { ":" } else { "s:" };
    let head = format!(in alloc; "{asked} {count} {agent}{end} ")?;
    text.push_str(head.as_str())?;
    let least = match objective {
        Objective::Cost => format!(in alloc; "together at least {cost}.\n")?,
        Objective::Makespan => format!(in alloc; "the greatest is at least {cost}.\n")?,
    };
    text.push_str(least.as_str())
}

/// Puts what all agents cost at least, beside the bound.
fn put_total(alloc: Global, leaf: &LowLeaf, text: &mut String) -> Result<(), AllocError> {
    let (cost, bound) = (least_cost(leaf), leaf.bound);
    let head = match leaf.objective {
        Objective::Cost => "Together ",
        Objective::Makespan => "The greatest is ",
    };
    text.push_str(head)?;
    text.push_str(format!(in alloc; "{cost}, and the bound is {bound}.\n")?.as_str())
}
