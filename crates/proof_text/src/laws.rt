//! What the text of a proof means: laws, which hold of all values and need no code.
ghost use Rattle.std.specs.Prelude.{◌≡◌, ℕ, List};
ghost use Rattle.text_io.specs.Reading.{IsFirstFault};
ghost use Rattle.grid.specs.Map.{Grid};
ghost use Rattle.optimality.specs.declared.constraint.Ends.{Ends};
ghost use Rattle.optimality.specs.Judging.{BoundHolds};
ghost use Rattle.proof_text.specs.declared.claim.ProofClaim.{ProofClaim};
ghost use Rattle.proof_text.specs.declared.proof_fault.ProofFault.{ProofFault};
ghost use Rattle.proof_text.specs.ProofFault.{ProofFaultAt};
ghost use Rattle.proof_text.specs.ProofText.{ProofText};

/// What a proof that holds says is so: no valid plan between these starts and goals costs less than
/// its bound.
pub fn proofs_hold()
    ensures { (m : Grid) (ends : List Ends) (claim : ProofClaim) (text : List ℕ)
        → ProofText m ends claim text
        → BoundHolds m ends claim.objective claim.bound }
{
    optimality::laws::trees();
}

/// A text says one thing at the most, or has a first fault, and never both.
pub fn one_claim()
    ensures one { (m : Grid) (ends : List Ends) (claim other : ProofClaim) (text : List ℕ)
        → ProofText m ends claim text
        → ProofText m ends other text → claim ≡ other }
    ensures never_both { (m : Grid) (ends : List Ends) (claim : ProofClaim) (fault : ProofFault)
        (text : List ℕ) → ProofText m ends claim text
        → IsFirstFault (ProofFaultAt m ends) fault text → ⊥ }
{
    text_io::laws::places();
    optimality::laws::leaves();
}
