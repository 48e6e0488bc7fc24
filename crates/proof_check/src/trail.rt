//! What is asked on the way to the node at hand, and what was found of the agents under it.
ghost use Rattle.std.specs.Prelude.{◌≡◌, ◌<◌, ◌≤◌, ◌⊎◌, ◌++◌, ◌∷◌, [], List};
ghost use Rattle.std.specs.Prelude.{IfOk, IfSome, length, take, Some, true, false, slice_get};
ghost use Rattle.grid.specs.Map.{Grid};
ghost use Rattle.optimality.specs.declared.constraint.Ends.{Ends as ends_type};
ghost use Rattle.optimality.specs.Constraints.{constraints_of};
ghost use Rattle.optimality.specs.Walkers.{CostsAtLeast};
ghost use Rattle.proof_check.specs.declared.trail.Kept.{Kept as kept_type};
ghost use Rattle.proof_check.specs.Code.Trails.{AreKeptWithin, IsTimely, IsTrail};
ghost use Rattle.proof_check.specs.Code.Trails.{child_demands, HoldsKept};

use crate::asking::{add_first, add_second};
use grid::Cell;
use least_costs::Least;
use optimality::{Demand, Ends, Node, Whom};
use std::alloc::{AllocError, Global};
use std::mem;

/// That an agent costs so much at least under what the first so many demands ask of it. Where the
/// walk has cells it costs just that.
#[derive(Drop)]
pub(crate) struct Kept {
    pub(crate) agent: usize,
    pub(crate) asked: usize,
    pub(crate) cost: u32,
    pub(crate) walk: Vec<Cell>,
    /// Where what was kept of the agent before stands.
    pub(crate) before: usize,
}

/// From where the plans of a node come.
#[derive(Clone, Copy, PartialEq, Eq)]
pub(crate) enum Child {
    Root,
    First(Node),
    Second(Node),
}

/// What is asked on the way to the node at hand, and what was found of the agents under it, both
/// the newest last.
#[derive(Drop)]
pub(crate) struct Trail {
    pub(crate) demands: Vec<Demand>,
    pub(crate) kept: Vec<Kept>,
    /// Where what is kept of each agent stands.
    pub(crate) latest: Vec<usize>,
}

impl Trail {
    /// Nothing is asked, and nothing is known of so many agents.
    pub(crate) fn new(alloc: Global, agents: usize) -> Result<Trail, AllocError>
        ensures { IfOk result (λ trail. (trail.demands.items ≡ []) × (trail.kept.items ≡ [])) }
    {
        Ok(Trail {
            demands: Vec::new(alloc),
            kept: Vec::new(alloc),
            latest: vec![in alloc; usize::MAX; agents]?,
        })
    }

    /// Goes back to where so many demands were made.
    pub(crate) fn go_back(&mut self, count: usize)
        requires { count ≤ length self.old.demands.items }
        ensures demands { self.new.demands.items ≡ take count self.old.demands.items }
        ensures trail { (m : Grid) (ends : List ends_type)
            → IsTrail m ends self.old.demands.items self.old.kept.items
            → IsTrail m ends self.new.demands.items self.new.kept.items }
    {
        self.forget(count);
        self.demands.truncate(count);
    }

    /// Forgets what was found under more demands than so many.
    fn forget(&mut self, count: usize)
        ensures demands { self.new.demands ≡ self.old.demands }
        ensures kept { (m : Grid) (ends : List ends_type)
            → IsTrail m ends self.old.demands.items self.old.kept.items
            → AreKeptWithin m ends self.old.demands.items count self.new.kept.items }
    {
        'found: while self.is_past(count) {
            if let Some(kept) = self.kept.pop() {
                let _ = note(&mut self.latest, kept.agent, kept.before);
            }
        }
    }

    /// Whether the newest was found under more demands than so many.
    fn is_past(&self, count: usize) -> bool
        ensures past { result ≡ true → 0 < length self.now.kept.items }
        ensures within { result ≡ false → (self.now.kept.items ≡ [])
            ⊎ ((front : List kept_type) × (last : kept_type)
            × (self.now.kept.items ≡ front ++ last ∷ []) × (last.asked ≤ count)) }
    {
        match self.kept.last() {
            Some(kept) => kept.asked > count,
            None => false,
        }
    }

    /// Adds what a child asks.
    pub(crate) fn add(&mut self, child: Child, ends: &[Ends]) -> Result<(), AllocError>
        requires { IsTimely child }
        ensures kept { self.new.kept ≡ self.old.kept }
        ensures demands { IfOk result (λ _. self.new.demands.items ≡ self.old.demands.items
            ++ child_demands ends.now child) }
    {
        match child {
            Child::Root => Ok(()),
            Child::First(node) => add_first(&mut self.demands, node),
            Child::Second(node) => add_second(&mut self.demands, node, ends),
        }
    }

    /// Keeps what was found of an agent under all that is asked.
    pub(crate) fn keep(&mut self, agent: usize, found: Least) -> Result<(), AllocError>
        ensures demands { self.new.demands ≡ self.old.demands }
        ensures trail { (m : Grid) (ends : List ends_type)
            → IsTrail m ends self.old.demands.items self.old.kept.items
            → ((own : ends_type) → slice_get ends agent ≡ Some own
            → CostsAtLeast m own (constraints_of self.old.demands.items agent) found.cost)
            → IfOk result (λ _. IsTrail m ends self.new.demands.items self.new.kept.items) }
    {
        let before = note(&mut self.latest, agent, self.kept.len());
        self.kept.push(Kept {
            agent,
            asked: self.demands.len(),
            cost: found.cost,
            walk: found.walk,
            before,
        })?;
        Ok(())
    }

    /// What is kept of an agent.
    pub(crate) fn known(&self, agent: usize) -> Option<&Kept>
        ensures agent { IfSome result (λ kept. kept.now.agent ≡ agent) }
        ensures hold { (m : Grid) (ends : List ends_type)
            → IsTrail m ends self.now.demands.items self.now.kept.items
            → IfSome result (λ kept. HoldsKept m ends self.now.demands.items kept.now) }
    {
        let place = *self.latest.get(agent)?;
        let kept = self.kept.get(place)?;
        if kept.agent == agent {
            Some(kept)
        } else {
            None
        }
    }

    /// The agent of which alone something is asked from a place on, if there is one.
    pub(crate) fn only_agent(&self, place: usize) -> Option<usize> {
        match self.demands_from(place) {
            [demand] => only(demand.whom),
            _ => None,
        }
    }

    /// The walk that is kept of an agent, if there is one.
    pub(crate) fn walk_of(&self, agent: usize) -> &[Cell] {
        match self.known(agent) {
            Some(kept) => &kept.walk,
            None => &[],
        }
    }

    /// The demands from a place on.
    pub(crate) fn demands_from(&self, place: usize) -> &[Demand] {
        self.demands.get(place..).unwrap_or(&[])
    }
}

fn only(whom: Whom) -> Option<usize> {
    match whom {
        Whom::Only(agent) => Some(agent as usize),
        Whom::AllBut(_) => None,
    }
}

/// Notes where what is kept of an agent stands, and says where it stood before.
fn note(latest: &mut [usize], agent: usize, place: usize) -> usize {
    match latest.get_mut(agent) {
        Some(at) => mem::replace(at, place),
        None => usize::MAX,
    }
}
