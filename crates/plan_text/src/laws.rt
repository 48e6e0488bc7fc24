//! What the definitions of a plan's text mean: laws, which hold of all values and need no code.
ghost use Rattle.std.specs.Prelude.{◌≡◌, ℕ, ◌⊎◌, List};
ghost use Rattle.text_io.specs.Reading.{IsFirstFault};
ghost use Rattle.model.specs.Plan.{Plan};
ghost use Rattle.plan_text.specs.declared.plan_text_fault.PlanTextFault.{PlanTextFault};
ghost use Rattle.plan_text.specs.Limits.{IsPlan};
ghost use Rattle.plan_text.specs.PlanText.{PlanText, canonical_plan_text};
ghost use Rattle.plan_text.specs.PlanTextFault.{PlanTextFaultAt};

/// Each text has exactly one reading as a plan: one plan that it spells, or one first fault.
pub fn one_reading()
    ensures some { (text : List ℕ) → ((p : Plan) × PlanText p text)
        ⊎ ((f : PlanTextFault) × IsFirstFault PlanTextFaultAt f text) }
    ensures one_plan { (text : List ℕ) (p q : Plan) → PlanText p text → PlanText q text → p ≡ q }
    ensures one_fault { (text : List ℕ) (f g : PlanTextFault) → IsFirstFault PlanTextFaultAt f text
        → IsFirstFault PlanTextFaultAt g text → f ≡ g }
    ensures never_both { (text : List ℕ) (p : Plan) (f : PlanTextFault) → PlanText p text
        → IsFirstFault PlanTextFaultAt f text → ⊥ }
{
    text_io::laws::places();
}

/// The text that is written for a plan within its limits spells that plan and no other, and no
/// other text spells it.
pub fn written_text()
    ensures spells { (p : Plan) → IsPlan p → PlanText p (canonical_plan_text p) }
    ensures only { (p q : Plan) → IsPlan p → PlanText q (canonical_plan_text p) → q ≡ p }
    ensures one_text { (p : Plan) (text : List ℕ) → PlanText p text → text ≡ canonical_plan_text p }
{
    text_io::laws::places();
}
