//! The names of `plan`.
use grid::{Cell, Counted, Map, WriteFault};
use plan::{
    Act, CheckedPlan, FitFault, Plan, PlanTextFault, PushFault, Rejected, check, fits, read_plan,
    write_plan,
};
use scen::Scenario;
use std::alloc::Global;
use std::io::{Read, Write};

pub fn plan_of<R: Read>(alloc: Global, reader: &mut Counted<R>) -> Result<Plan, PlanTextFault> {
    read_plan(alloc, reader)
}

pub fn text_of<W: Write>(plan: &Plan, writer: &mut Counted<W>) -> Result<(), WriteFault> {
    write_plan(plan, writer)
}

pub fn with_agent(
    alloc: Global,
    number: u32,
    start: Cell,
    acts: Vec<Act>,
) -> Result<Plan, PushFault> {
    let mut plan = Plan::new(alloc, number);
    plan.push(start, acts)?;
    Ok(plan)
}

pub fn checked(alloc: Global, map: &Map, plan: Plan) -> Result<CheckedPlan, Rejected> {
    check(alloc, map, plan)
}

pub fn place_of(plan: &CheckedPlan, agent: u32, time: u32) -> Option<Cell> {
    plan.position(agent, time)
}

/// The number of a plan, how many agents it has, what this one and all cost, and the makespan.
pub fn costs(plan: &CheckedPlan, agent: u32) -> (u32, u32, Option<u32>, u64, u32) {
    (
        plan.number(),
        plan.agents(),
        plan.cost(agent),
        plan.sum_of_costs(),
        plan.makespan(),
    )
}

pub fn solves(plan: &CheckedPlan, scenario: &Scenario, count: u32) -> Result<(), FitFault> {
    fits(plan, scenario, count)
}
