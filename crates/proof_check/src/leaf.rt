//! What a leaf asks of the agents, and what they cost at least there.
ghost use Rattle.std.specs.Prelude.{◌≡◌, ◌++◌, ◌∷◌, [], IfOk, List};
ghost use Rattle.grid.specs.Map.{Grid};
ghost use Rattle.optimality.specs.declared.constraint.Ends.{Ends as ends_type};
ghost use Rattle.proof_text.specs.ProofFault.{IsProofLineDue};
ghost use Rattle.text_io.specs.Counted.{counted_inner};
ghost use Rattle.text_io.specs.Lines.{HasTaken};
ghost use Rattle.text_io.specs.Source.{source_reader};
ghost use Rattle.proof_check.specs.Leaf.{IsDue, ShowsLeaf};
ghost use Rattle.proof_check.specs.Code.AgentsAsked.{AreAgentsAsked};
ghost use Rattle.proof_check.specs.Code.Progressing.{IsProgress, due_of};

use crate::asking::constraints_of;
use crate::line_reader::read_line;
use crate::progress::{Progress, Stage, unjudged};
use grid::Map;
use least_costs::LegalSteps;
use optimality::{Constraint, Demand, Ends, Objective};
use proof_text::ProofFault;
use std::alloc::{AllocError, Global};
use std::io::Read;
use text_io::{Counted, PIECE, Source};

/// An agent at a leaf.
#[derive(Debug, Drop)]
pub struct AgentAtLeaf {
    /// What is asked of it, in the order of the nodes above the leaf.
    pub asked: Vec<Constraint>,
    /// What it costs at least under that.
    pub least: u32,
}

/// A leaf that is too low, with its agents, agent 0 first.
#[derive(Debug, Drop)]
pub struct LowLeaf {
    pub objective: Objective,
    pub bound: u32,
    pub agents: Vec<AgentAtLeaf>,
}

/// Reads a proof, of agents that go from these starts to these goals, up to the line with this
/// number, and shows the leaf that is due there. Where that line can't be that of a leaf that is
/// too low, some fault is answered.
pub fn leaf_at<R: Read>(
    alloc: Global,
    map: &Map,
    ends: Vec<Ends>,
    reader: &mut Counted<R>,
    number: u64,
) -> Result<LowLeaf, ProofFault>
    ensures { IfOk result
        (ShowsLeaf map.now ends.items number (R.remaining (counted_inner reader.old))
        (R.remaining (counted_inner reader.new))) }
{
    let mut source = Source::new(reader);
    read_up_to(alloc, map, ends, &mut source, number)
}

/// Reads the lines before the one with this number, of a source of which nothing was taken.
fn read_up_to<R: Read>(
    alloc: Global,
    map: &Map,
    ends: Vec<Ends>,
    source: &mut Source<'_, R, PIECE>,
    number: u64,
) -> Result<LowLeaf, ProofFault>
    requires { HasTaken R.remaining (source_reader source.old) source.old [] }
    ensures same_reader { source.new.reader.ghost_name ≡ source.old.reader.ghost_name }
    ensures shows { IfOk result
        (ShowsLeaf map.now ends.items number
        (R.remaining (counted_inner (source_reader source.old)))
        (R.remaining (counted_inner (source_reader source.new)))) }
{
    let legal = LegalSteps::of(alloc, map)?;
    let mut progress = Progress::new(alloc, map, &legal, ends)?;
    let mut next = 1u64;
    'lines: while progress.is_line_due() {
        if next == number {
            return progress.low_leaf(alloc);
        }
        next = read_line(source, &mut progress, next)?;
    }
    Err(ProofFault::NotTight)
}

impl Progress<'_> {
    /// Goes to the leaf that is due.
    fn low_leaf(&mut self, alloc: Global) -> Result<LowLeaf, ProofFault>
        requires { IsProofLineDue (due_of self.old) }
        ensures { (m : Grid) (ends : List ends_type) → IsProgress m ends self.old
            → IfOk result (IsDue m ends (due_of self.old)) }
    {
        let Stage::Nodes(aim) = self.stage else {
            return Err(ProofFault::NotTight);
        };
        let _above = self.go_on(aim)?;
        let least = match self.judge.least_costs(aim.bound) {
            Ok(least) => least,
            Err(fault) => return Err(unjudged(fault)),
        };
        let agents = agents_asked(alloc, &self.judge.trail.demands, &least, aim.bound)?;
        Ok(LowLeaf {
            objective: aim.objective,
            bound: aim.bound,
            agents,
        })
    }
}

/// What the demands ask of each agent, beside what it costs at least; each costs less than the
/// bound where the leaf is too low.
fn agents_asked(
    alloc: Global,
    demands: &[Demand],
    least: &[u32],
    bound: u32,
) -> Result<Vec<AgentAtLeaf>, ProofFault>
    ensures { IfOk result (λ agents. AreAgentsAsked demands.now least.now bound agents.items) }
{
    let mut agents = Vec::new(alloc);
    for (agent, least) in least.iter().enumerate() {
        if *least >= bound {
            return Err(ProofFault::NotTight);
        }
        let asked = constraints_of(alloc, demands, agent)?;
        add(
            &mut agents,
            AgentAtLeaf {
                asked,
                least: *least,
            },
        )?;
    }
    Ok(agents)
}

fn add(agents: &mut Vec<AgentAtLeaf>, agent: AgentAtLeaf) -> Result<(), AllocError>
    ensures { IfOk result (λ _. agents.new.items ≡ agents.old.items ++ agent ∷ []) }
{
    agents.push(agent)?;
    Ok(())
}
