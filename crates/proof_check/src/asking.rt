//! What the children of a node ask.
ghost use Rattle.std.specs.Prelude.{◌≡◌, ◌<◌, ◌++◌, ◌∷◌, [], IfOk};
ghost use Rattle.optimality.specs.Constraints.{constraints_of, concerns};
ghost use Rattle.optimality.specs.Splitting.{all_but, first_demands, goal_of, only, second_demands};
ghost use Rattle.proof_check.specs.Code.Trails.{node_time};

use grid::Cell;
use optimality::{Constraint, Demand, Ends, Node, Whom};
use std::alloc::{AllocError, Global};

fn only(agent: u32, constraint: Constraint) -> Demand
    ensures { result ≡ only agent constraint }
{
    Demand {
        whom: Whom::Only(agent),
        constraint,
    }
}

fn all_but(agent: u32, constraint: Constraint) -> Demand
    ensures { result ≡ all_but agent constraint }
{
    Demand {
        whom: Whom::AllBut(agent),
        constraint,
    }
}

/// Adds what the first child of a node asks.
pub(crate) fn add_first(demands: &mut Vec<Demand>, node: Node) -> Result<(), AllocError>
    ensures { IfOk result (λ _. demands.new.items ≡ demands.old.items ++ first_demands node) }
{
    let demand = match node {
        Node::Vertex(i, _, t, c) | Node::At(i, t, c) => only(i, Constraint::Away(t, c)),
        Node::Swap(i, _, t, u, v) | Node::Goes(i, t, u, v) => {
            only(i, Constraint::NotTaken(t, u, v))
        }
        Node::Stays(i, t) => only(i, Constraint::Above(t)),
    };
    demands.push(demand)?;
    Ok(())
}

/// Adds what the second child asks.
pub(crate) fn add_second(
    demands: &mut Vec<Demand>,
    node: Node,
    ends: &[Ends],
) -> Result<(), AllocError>
    requires { node_time node < 65536 }
    ensures { IfOk result
        (λ _. demands.new.items ≡ demands.old.items ++ second_demands ends.now node) }
{
    match node {
        Node::Vertex(_, j, t, c) => demands.push(only(j, Constraint::Away(t, c)))?,
        Node::Swap(_, j, t, u, v) => demands.push(only(j, Constraint::NotTaken(t, v, u)))?,
        Node::At(i, t, c) => {
            demands.push(only(i, Constraint::There(t, c)))?;
            demands.push(all_but(i, Constraint::Away(t, c)))?;
        }
        Node::Goes(i, t, u, v) => {
            demands.push(only(i, Constraint::There(t, u)))?;
            demands.push(only(i, Constraint::There(t + 1, v)))?;
            demands.push(all_but(i, Constraint::Away(t, u)))?;
            demands.push(all_but(i, Constraint::Away(t + 1, v)))?;
            demands.push(all_but(i, Constraint::NotTaken(t, v, u)))?;
        }
        Node::Stays(i, t) => {
            let goal = goal_of(ends, i);
            demands.push(only(i, Constraint::Within(t)))?;
            demands.push(all_but(i, Constraint::AwayFrom(t, goal)))?;
        }
    }
    Ok(())
}

/// Where an agent ends.
fn goal_of(ends: &[Ends], agent: u32) -> Cell
    ensures { result ≡ goal_of ends.now agent }
{
    match ends.get(agent as usize) {
        Some(own) => own.goal,
        None => Cell { x: 0, y: 0 },
    }
}

/// Whether something is asked of an agent.
pub(crate) fn concerns(whom: Whom, agent: usize) -> bool
    ensures { result ≡ concerns whom agent }
{
    match whom {
        Whom::Only(one) => agent == one as usize,
        Whom::AllBut(one) => agent != one as usize,
    }
}

/// Puts there what is asked of an agent.
pub(crate) fn put_constraints(
    asked: &mut Vec<Constraint>,
    demands: &[Demand],
    agent: usize,
) -> Result<(), AllocError>
    ensures { IfOk result (λ _. asked.new.items ≡ constraints_of demands.now agent) }
{
    asked.clear();
    for demand in demands {
        if concerns(demand.whom, agent) {
            asked.push(demand.constraint)?;
        }
    }
    Ok(())
}

/// What is asked of an agent.
pub(crate) fn constraints_of(
    alloc: Global,
    demands: &[Demand],
    agent: usize,
) -> Result<Vec<Constraint>, AllocError>
    ensures { IfOk result (λ asked. asked.items ≡ constraints_of demands.now agent) }
{
    let mut asked = Vec::new(alloc);
    put_constraints(&mut asked, demands, agent)?;
    Ok(asked)
}
