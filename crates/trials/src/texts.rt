//! Texts, and what is made of them. Nothing but memory can be lacking.
use depgraph::{Graph, OutOfMemory};
use grid::{Map, read_map};
use plan::{CheckedPlan, Plan, check, read_plan};
use std::alloc::Global;
use text_io::Counted;

/// A map of two rows, one of whose cells is blocked.
pub const CORNER: &str = "type octile\nheight 2\nwidth 3\nmap\n...\n.@.\n";

/// A map of a row of three passable cells.
pub const LANE: &str = "type octile\nheight 1\nwidth 3\nmap\n...\n";

/// A map of two by two passable cells.
pub const SQUARE: &str = "type octile\nheight 2\nwidth 2\nmap\n..\n..\n";

/// A scenario on the corner.
pub const ROW: &str = "version 1\n0\tm.map\t3\t2\t0\t1\t1\t0\t2.00000000\n";

/// A plan on the lane: agent 0 goes from the middle to the right, and agent 1 follows it.
pub const BEHIND: &str = "mapf-plan 1\nnumber 7\nagents 2\nagent 1 0 e-\nagent 0 0 e\n";

/// The scenario that it solves.
pub const TASKS: &str = "version 1\n0 m.map 3 1 1 0 2 0 1\n0 m.map 3 1 0 0 1 0 1\n";

/// Agent 0 makes its move, agent 1 hears of it, and begins its own.
pub const EVENTS: &str = "mapf-events 1\nstart 0\nfinish 0\nsay 0\ndeliver 1 0\nstart 1\n";

/// What these events are answered.
pub const REPLIES: &str =
    "moving 2 0\narrived 2 0\nsaid 0 460100000000000700000001\nheard 0 1\nmoving 1 0\n";

pub fn map_of(alloc: Global, text: &str) -> Result<Map, OutOfMemory> {
    read_map(alloc, &mut Counted::new(text.as_bytes())).map_err(|_| OutOfMemory)
}

fn plan_of(alloc: Global, text: &str) -> Result<Plan, OutOfMemory> {
    read_plan(alloc, &mut Counted::new(text.as_bytes())).map_err(|_| OutOfMemory)
}

fn checked(alloc: Global) -> Result<CheckedPlan, OutOfMemory> {
    let map = map_of(alloc, LANE)?;
    let plan = plan_of(alloc, BEHIND)?;
    check(alloc, &map, plan).map_err(|_| OutOfMemory)
}

/// The graph of the plan `BEHIND`.
pub fn graph_of_behind(alloc: Global) -> Result<Graph, OutOfMemory> {
    let plan = checked(alloc)?;
    Graph::build(alloc, &plan)
}
