//! The lines before those of the tree.
ghost use Rattle.std.specs.Prelude.{◌≡◌, ℕ, ◌≤◌, ◌<◌, ◌^◌, List, codes, length, MatchResult};
ghost use Rattle.text_io.specs.Reading.{at_line_feed};
ghost use Rattle.grid.specs.Map.{Grid};
ghost use Rattle.optimality.specs.declared.constraint.Ends.{Ends};
ghost use Rattle.plan_text.specs.PlanText.{SaysNumber};
ghost use Rattle.optimality.specs.declared.constraint.Objective.{Objective as objective_kind};
ghost use Rattle.proof_text.specs.ProofFault.{HasProofFault, longest_proof_line};
ghost use Rattle.proof_text.specs.ProofLines.{objective_line, proof_header};
ghost use Rattle.proof_text.specs.ProofText.{bound_due, header_due, objective_due};

use crate::ProofFault;
use optimality::Objective;
use text_io::small_numeral;

/// Refuses a line that is not the header.
pub fn read_header(line: &[u8], number: u64) -> Result<(), ProofFault>
    requires { length line.now ≤ longest_proof_line }
    ensures { MatchResult result (λ _. line.now ≡ proof_header)
        (λ fault. (m : Grid) (ends : List Ends)
        → HasProofFault m ends fault at_line_feed header_due number line.now) }
{
    if line != b"mapf-proof 1".as_slice() {
        return Err(ProofFault::BadHeader(number));
    }
    Ok(())
}

/// What the bound is of, from its line.
pub fn read_objective(line: &[u8], number: u64) -> Result<Objective, ProofFault>
    requires { length line.now ≤ longest_proof_line }
    ensures { MatchResult result (λ o. line.now ≡ objective_line o)
        (λ fault. (m : Grid) (ends : List Ends)
        → HasProofFault m ends fault at_line_feed objective_due number line.now) }
{
    if line == b"objective cost".as_slice() {
        return Ok(Objective::Cost);
    }
    if line == b"objective makespan".as_slice() {
        return Ok(Objective::Makespan);
    }
    Err(ProofFault::BadHeader(number))
}

/// The bound, from its line.
pub fn read_bound(line: &[u8], number: u64) -> Result<u32, ProofFault>
    requires { length line.now ≤ longest_proof_line }
    ensures { MatchResult result (λ n. SaysNumber (codes "bound ") n line.now × (n < 2 ^ 32))
        (λ fault. (m : Grid) (ends : List Ends) (o : objective_kind)
        → HasProofFault m ends fault at_line_feed (bound_due o) number line.now) }
{
    let Some(digits) = line.strip_prefix(b"bound ") else {
        return Err(ProofFault::BadHeader(number));
    };
    match small_numeral(digits) {
        Some(bound) => Ok(bound),
        None => Err(ProofFault::BadNumber(number)),
    }
}
