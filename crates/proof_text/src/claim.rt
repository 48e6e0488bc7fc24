//! What a proof says.

use optimality::Objective;

/// A bound on what plans cost, and how many nodes the tree has that shows it.
#[derive(Clone, Copy, Debug, PartialEq, Eq)]
pub struct ProofClaim {
    pub objective: Objective,
    pub bound: u32,
    pub nodes: u32,
}
