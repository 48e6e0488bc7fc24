//! What the lines of a proof have said, and the nodes that are due.
ghost use Rattle.std.specs.Prelude.{◌≡◌, ◌+◌, ◌≤◌, ◌⊎◌, ◌++◌, ◌∷◌, []};
ghost use Rattle.std.specs.Prelude.{true, Decides, IfOk, List, MatchResult, length};
ghost use Rattle.grid.specs.Map.{Grid};
ghost use Rattle.optimality.specs.declared.constraint.Ends.{Ends as ends_type};
ghost use Rattle.optimality.specs.Judging.{LeafStands, children, root};
ghost use Rattle.proof_text.specs.ProofFault.{IsProofLineDue, longest_proof_line};
ghost use Rattle.proof_text.specs.ProofText.{ProofFollows, nodes_due};
ghost use Rattle.proof_text.specs.Code.ProofReading.{IsUnjudged, ProofRefuses};
ghost use Rattle.proof_text.specs.declared.proof_fault.ProofFault.{ProofFault as fault_type};
ghost use Rattle.proof_text.specs.declared.proof_fault.ProofFault.TheVariants.{TooMany};
ghost use Rattle.proof_check.specs.declared.due.DueNode.{DueNode as due_node};
ghost use Rattle.proof_check.specs.Code.Progressing.{HasGoneTo, HasSplit, IsLeafRefused};
ghost use Rattle.proof_check.specs.Code.Progressing.{IsMisplaced, IsPlaced, IsProgress};
ghost use Rattle.proof_check.specs.Code.Progressing.{IsWithinTree, StaysAt, due_of};
ghost use Rattle.proof_check.specs.Code.Stack.{subtree_of, subtrees};
ghost use Rattle.proof_check.specs.Code.Trails.{IsTimely, node_time};

use crate::due::DueNode;
use crate::judge::{Aim, Judge};
use crate::placing::{has_agents, has_cells};
use crate::trail::Child;
use grid::Map;
use least_costs::LegalSteps;
use least_steps::StepFault;
use optimality::{Ends, Node, Objective};
use proof_text::{ProofClaim, ProofFault, read_bound, read_header, read_node, read_objective};
use std::alloc::{AllocError, Global};

/// No node has more nodes above it.
const MOST_ABOVE: u32 = 65_535;

/// The line that is due.
#[derive(Clone, Copy)]
pub(crate) enum Stage {
    Header,
    Objective,
    Bound(Objective),
    /// A node, if one is due.
    Nodes(Aim),
}

/// What the lines so far said. The node that is due next is the last.
#[derive(Drop)]
pub(crate) struct Progress<'a> {
    pub(crate) map: &'a Map,
    pub(crate) judge: Judge<'a>,
    pub(crate) stage: Stage,
    pub(crate) nodes: u32,
    pub(crate) due: Vec<DueNode>,
}

impl<'a> Progress<'a> {
    /// No line is read yet.
    pub(crate) fn new(
        alloc: Global,
        map: &'a Map,
        legal: &'a LegalSteps<'a>,
        ends: Vec<Ends>,
    ) -> Result<Progress<'a>, AllocError>
        ensures progress { legal.now ≡ map.now
            → IfOk result (λ p. IsProgress map.now ends.items p) }
        ensures stage { IfOk result (λ p. p.stage ≡ Stage.Header) }
    {
        let judge = Judge::new(alloc, legal, ends)?;
        Ok(Progress {
            map,
            judge,
            stage: Stage::Header,
            nodes: 0,
            due: Vec::new(alloc),
        })
    }

    pub(crate) fn is_line_due(&self) -> bool
        ensures { Decides result (IsProofLineDue (due_of self.now)) }
    {
        match self.stage {
            Stage::Header | Stage::Objective | Stage::Bound(_) => true,
            Stage::Nodes(_) => !self.due.is_empty(),
        }
    }

    /// What was said, where no line is due any more.
    pub(crate) fn claim(&self) -> ProofClaim
        ensures { (IsProofLineDue (due_of self.now) → ⊥)
            → due_of self.now ≡ nodes_due result.objective result.bound result.nodes [] }
    {
        let (objective, bound) = match self.stage {
            Stage::Nodes(aim) => (aim.objective, aim.bound),
            Stage::Header | Stage::Objective | Stage::Bound(_) => (Objective::Cost, 0),
        };
        ProofClaim {
            objective,
            bound,
            nodes: self.nodes,
        }
    }

    /// Adds a line that is due.
    pub(crate) fn add_line(&mut self, line: &[u8], number: u64) -> Result<(), ProofFault>
        requires due { IsProofLineDue (due_of self.old) }
        requires short { length line.now ≤ longest_proof_line }
        ensures { (m : Grid) (ends : List ends_type) → IsProgress m ends self.old
            → MatchResult result
            (λ _. IsProgress m ends self.new
            × ProofFollows m ends (due_of self.old) line.now (due_of self.new))
            (ProofRefuses m ends (due_of self.old) number line.now) }
    {
        match self.stage {
            Stage::Header => {
                read_header(line, number)?;
                self.stage = Stage::Objective;
                Ok(())
            }
            Stage::Objective => {
                let objective = read_objective(line, number)?;
                self.stage = Stage::Bound(objective);
                Ok(())
            }
            Stage::Bound(objective) => {
                let bound = read_bound(line, number)?;
                self.begin(Aim { objective, bound })?;
                Ok(())
            }
            Stage::Nodes(aim) => self.add_node(aim, line, number),
        }
    }

    /// The tree is due.
    fn begin(&mut self, aim: Aim) -> Result<(), ProofFault>
        ensures begun { (m : Grid) (ends : List ends_type) → IsProgress m ends self.old
            → MatchResult result
            (λ _. IsProgress m ends self.new
            × (due_of self.new ≡ nodes_due aim.objective aim.bound 0 (root ∷ []))) IsUnjudged }
    {
        self.due.clear();
        add_due(&mut self.due, 0, Child::Root, 0)?;
        self.nodes = 0;
        self.stage = Stage::Nodes(aim);
        Ok(())
    }

    /// Adds the line of a node that is due.
    fn add_node(&mut self, aim: Aim, line: &[u8], number: u64) -> Result<(), ProofFault>
        requires stage { self.old.stage ≡ Stage.Nodes aim }
        requires due { IsProofLineDue (due_of self.old) }
        requires short { length line.now ≤ longest_proof_line }
        ensures { (m : Grid) (ends : List ends_type) → IsProgress m ends self.old
            → MatchResult result
            (λ _. IsProgress m ends self.new
            × ProofFollows m ends (due_of self.old) line.now (due_of self.new))
            (ProofRefuses m ends (due_of self.old) number line.now) }
    {
        let node = read_node(line, number)?;
        self.check_limits(number)?;
        match node {
            None => self.add_leaf(aim, number),
            Some(node) => self.add_split(node, aim, number),
        }
    }

    /// Adds a leaf.
    fn add_leaf(&mut self, aim: Aim, number: u64) -> Result<(), ProofFault>
        ensures { (m : Grid) (ends : List ends_type) (others : List due_node) (next : due_node)
            → IsProgress m ends self.old → self.old.stage ≡ Stage.Nodes aim
            → self.old.due.items ≡ others ++ next ∷ [] → IsWithinTree self.old.nodes next.above
            → MatchResult result
            (λ _. IsProgress m ends self.new
            × LeafStands m ends aim.objective aim.bound
            (subtree_of ends self.old.judge.trail.demands.items next).demands
            × (due_of self.new ≡ nodes_due aim.objective aim.bound (self.old.nodes + 1)
            (subtrees ends self.old.judge.trail.demands.items others)))
            (IsLeafRefused m ends aim
            (subtree_of ends self.old.judge.trail.demands.items next).demands number) }
    {
        let _above = self.go_on(aim)?;
        self.judge_leaf(aim, number)?;
        self.nodes = self.nodes.saturating_add(1);
        Ok(())
    }

    /// Adds a node that splits.
    fn add_split(&mut self, node: Node, aim: Aim, number: u64) -> Result<(), ProofFault>
        ensures { (m : Grid) (ends : List ends_type) (others : List due_node) (next : due_node)
            → IsProgress m ends self.old → self.old.stage ≡ Stage.Nodes aim
            → self.old.due.items ≡ others ++ next ∷ [] → IsWithinTree self.old.nodes next.above
            → MatchResult result
            (λ _. IsProgress m ends self.new × IsPlaced m ends node
            × (due_of self.new ≡ nodes_due aim.objective aim.bound (self.old.nodes + 1)
            (children ends node (subtree_of ends self.old.judge.trail.demands.items next)
            ++ subtrees ends self.old.judge.trail.demands.items others)))
            (λ fault. IsUnjudged fault ⊎ IsMisplaced m ends node number fault) }
    {
        self.check_place(node, number)?;
        let above = self.go_on(aim)?;
        self.split(node, above)?;
        self.nodes = self.nodes.saturating_add(1);
        Ok(())
    }

    /// Refuses a node that is too deep, or one too many.
    fn check_limits(&self, number: u64) -> Result<(), ProofFault>
        ensures { (others : List due_node) (next : due_node)
            → self.now.due.items ≡ others ++ next ∷ [] → MatchResult result
            (λ _. IsWithinTree self.now.nodes next.above) (λ fault. (fault ≡ TooMany number)
            × (IsWithinTree self.now.nodes next.above → ⊥)) }
    {
        match self.due.last() {
            Some(next) if next.above <= MOST_ABOVE && self.nodes < u32::MAX => Ok(()),
            _ => Err(ProofFault::TooMany(number)),
        }
    }

    /// Refuses a node that names agents or cells that are not there.
    fn check_place(&self, node: Node, number: u64) -> Result<(), ProofFault>
        ensures { (m : Grid) (ends : List ends_type) → IsProgress m ends self.now
            → MatchResult result (λ _. IsPlaced m ends node) (IsMisplaced m ends node number) }
    {
        if !has_agents(&self.judge.ends, node) {
            return Err(ProofFault::NoSuchAgent(number));
        }
        if !has_cells(self.map, node) {
            return Err(ProofFault::OffMap(number));
        }
        Ok(())
    }

    /// Goes on to the node that is due next, and says how many nodes are above it.
    pub(crate) fn go_on(&mut self, aim: Aim) -> Result<u32, ProofFault>
        ensures { (m : Grid) (ends : List ends_type) (others : List due_node) (next : due_node)
            → IsProgress m ends self.old
            → self.old.due.items ≡ others ++ next ∷ [] → MatchResult result
            (λ above. (above ≡ next.above) × IsProgress m ends self.new
            × HasGoneTo ends others next self.old self.new) IsUnjudged }
    {
        let Some(next) = self.due.pop() else {
            return Err(ProofFault::NotTight);
        };
        if next.asked > self.judge.trail.demands.len() || !is_timely(next.child) {
            return Err(ProofFault::NotTight);
        }
        match self.judge.go_to(next.asked, next.child, aim) {
            Ok(()) => Ok(next.above),
            Err(fault) => Err(unjudged(fault)),
        }
    }

    /// Refuses a leaf that is too low.
    fn judge_leaf(&mut self, aim: Aim, number: u64) -> Result<(), ProofFault>
        ensures { (m : Grid) (ends : List ends_type) → IsProgress m ends self.old
            → MatchResult result
            (λ _. IsProgress m ends self.new × StaysAt self.old self.new
            × LeafStands m ends aim.objective aim.bound self.old.judge.trail.demands.items)
            (IsLeafRefused m ends aim self.old.judge.trail.demands.items number) }
    {
        match self.judge.judge_leaf(aim) {
            Ok(None) => Ok(()),
            Ok(Some(least)) => Err(ProofFault::LeafTooLow(number, least)),
            Err(fault) => Err(unjudged(fault)),
        }
    }

    /// Puts the children of the node at hand, which has so many above it, in its place.
    fn split(&mut self, node: Node, above: u32) -> Result<(), ProofFault>
        ensures { (m : Grid) (ends : List ends_type) → IsProgress m ends self.old → above ≤ 65535
            → MatchResult result
            (λ _. IsProgress m ends self.new
            × HasSplit ends node above self.old self.new) IsUnjudged }
    {
        let asked = self.judge.trail.demands.len();
        let below = above.saturating_add(1);
        add_due(&mut self.due, asked, Child::Second(node), below)?;
        add_due(&mut self.due, asked, Child::First(node), below)?;
        Ok(())
    }
}

fn add_due(due: &mut Vec<DueNode>, asked: usize, child: Child, above: u32) -> Result<(), AllocError>
    ensures { IfOk result
        (λ _. due.new.items ≡ due.old.items
        ++ record { asked = asked; child = child; above = above } ∷ []) }
{
    due.push(DueNode {
        asked,
        child,
        above,
    })?;
    Ok(())
}

/// A search that has no answer.
pub(crate) fn unjudged(fault: StepFault) -> ProofFault
    ensures { IsUnjudged result }
{
    match fault {
        StepFault::NotTight => ProofFault::NotTight,
        StepFault::OutOfMemory => ProofFault::OutOfMemory,
    }
}

/// Whether the time that a child names is one of a text, so that there is a next one.
fn is_timely(child: Child) -> bool
    ensures { result ≡ true → IsTimely child }
{
    match child {
        Child::Root => true,
        Child::First(node) | Child::Second(node) => time_of(node) <= 65_535,
    }
}

fn time_of(node: Node) -> u32
    ensures { result ≡ node_time node }
{
    match node {
        Node::Vertex(_, _, t, _)
        | Node::Swap(_, _, t, _, _)
        | Node::At(_, t, _)
        | Node::Goes(_, t, _, _)
        | Node::Stays(_, t) => t,
    }
}
