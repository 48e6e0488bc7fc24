//! The line of a node.
ghost use Rattle.std.specs.Prelude.{◌≡◌, ◌≢◌, ℕ, ◌≤◌, ◌⊎◌, ◌↔◌, ◌∷◌};
ghost use Rattle.std.specs.Prelude.{List, IsTrue, codes, length, MatchOption, MatchResult};
ghost use Rattle.text_io.specs.Reading.{at_line_feed};
ghost use Rattle.grid.specs.Map.{AreNext, Grid, ShareSide};
ghost use Rattle.optimality.specs.declared.constraint.Ends.{Ends};
ghost use Rattle.optimality.specs.declared.constraint.Objective.{Objective};
ghost use Rattle.optimality.specs.Judging.{Subtree};
ghost use Rattle.optimality.specs.Splitting.{IsNode};
ghost use Rattle.proof_text.specs.ProofFault.{HasForm, HasProofFault, longest_proof_line};
ghost use Rattle.proof_text.specs.ProofLines.{IsNodeOrLeaf, SpellsNodeLine};
ghost use Rattle.proof_text.specs.ProofText.{nodes_due};
ghost use Rattle.proof_text.specs.Code.NodeParts.{HasNodeParts};

use crate::ProofFault;
use crate::form::Form;
use crate::numbers::{Numbers, first_part};
use grid::Cell;
use optimality::Node;

/// The node of a line that is due in the tree; none is a leaf.
pub fn read_node(line: &[u8], number: u64) -> Result<Option<Node>, ProofFault>
    requires { length line.now ≤ longest_proof_line }
    ensures { MatchResult result (λ node. SpellsNodeLine node line.now × IsNodeOrLeaf node)
        (λ fault. (m : Grid) (ends : List Ends) (objective : Objective) (bound count : ℕ)
        (here : Subtree) (due : List Subtree)
        → HasProofFault m ends fault at_line_feed (nodes_due objective bound count (here ∷ due))
        number line.now) }
{
    if line == b"leaf".as_slice() {
        return Ok(None);
    }
    let Some((form, numbers)) = parts_of(line) else {
        return Err(ProofFault::BadNode(number));
    };
    if !numbers.are_numbers {
        return Err(ProofFault::BadNumber(number));
    }
    let node = form.node(numbers.values);
    if !is_node(node) {
        return Err(ProofFault::BadNode(number));
    }
    Ok(Some(node))
}

/// The word of a line that is no leaf's, and its numbers, of which there are so many as are due.
fn parts_of(line: &[u8]) -> Option<(Form, Numbers)>
    ensures { MatchOption result (line.now ≢ codes "leaf" → (parts : List (List ℕ))
        → HasForm parts line.now → ⊥)
        (λ found. HasNodeParts found.0 found.1 line.now) }
{
    let (word, behind) = first_part(line);
    let form = Form::of_word(word)?;
    let numbers = Numbers::from_bytes(behind?)?;
    if numbers.count != form.count() {
        return None;
    }
    Some((form, numbers))
}

/// Whether two agents differ, and the cells of a step share a side.
fn is_node(node: Node) -> bool
    ensures { IsTrue result ↔ IsNode node }
{
    match node {
        Node::Vertex(i, j, _, _) => i != j,
        Node::Swap(i, j, _, from, to) => i != j && share_side(from, to),
        Node::Goes(_, _, from, to) => share_side(from, to),
        Node::At(..) | Node::Stays(..) => true,
    }
}

fn share_side(from: Cell, to: Cell) -> bool
    ensures { IsTrue result ↔ ShareSide from to }
{
    (from.x == to.x && are_next(from.y, to.y)) || (from.y == to.y && are_next(from.x, to.x))
}

/// Whether the numbers differ by one.
fn are_next(a: u16, b: u16) -> bool
    ensures { IsTrue result ↔ AreNext a b }
{
    a.abs_diff(b) == 1
}
