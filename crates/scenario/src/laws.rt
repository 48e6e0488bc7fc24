//! What the definitions of this crate mean: laws, which hold of all values and need no code.
ghost use Rattle.std.specs.Prelude.{◌≡◌, ℕ, ◌+◌, ◌*◌, ◌⊎◌, ◌↔◌, List};
ghost use Rattle.std.specs.List.{AllByRecursion};
ghost use Rattle.text_io.specs.Reading.{IsFirstFault};
ghost use Rattle.scenario.specs.declared.scen_fault.ScenFault.{ScenFault};
ghost use Rattle.scenario.specs.Query.{Query, IsQuery, canonical_scen_text};
ghost use Rattle.scenario.specs.ScenText.{ScenText};
ghost use Rattle.scenario.specs.ScenFault.{ScenFaultAt};
ghost use Rattle.std.specs.declared.cmp.Ordering.TheVariants.{Equal, Greater, Less};
ghost use Rattle.scenario.specs.Code.Comparison.{parts_cmp};
ghost use Rattle.scenario.specs.Length.{IsAtMost, IsLess};

/// The order of lengths is that of numbers: it is total and transitive, and adding the same to both
/// sides keeps it.
pub fn order_of_lengths()
    ensures only_zero { (p q : ℕ) → p * p ≡ 2 * (q * q) → (p ≡ 0) × (q ≡ 0) }
    ensures total { (a b c d : ℕ) → IsLess a b c d ⊎ (((a ≡ c) × (b ≡ d)) ⊎ IsLess c d a b) }
    ensures irreflexive { (a b : ℕ) → IsLess a b a b → ⊥ }
    ensures never_both { (a b c d : ℕ) → IsLess a b c d → IsLess c d a b → ⊥ }
    ensures transitive { (a b c d e f : ℕ) → IsLess a b c d → IsLess c d e f → IsLess a b e f }
    ensures step { (a b c d s t : ℕ) → IsLess a b c d → IsLess (a + s) (b + t) (c + s) (d + t) }
    ensures step_at_most { (a b c d s t : ℕ) → IsAtMost a b c d
        → IsAtMost (a + s) (b + t) (c + s) (d + t) }
{}

/// What `cmp`, `<` and their kin compute of two lengths is their order.
pub fn comparison_of_lengths()
    ensures less { (a b c d : ℕ) → (parts_cmp a b c d ≡ Less) ↔ IsLess a b c d }
    ensures equal { (a b c d : ℕ) → (parts_cmp a b c d ≡ Equal) ↔ ((a ≡ c) × (b ≡ d)) }
    ensures greater { (a b c d : ℕ) → (parts_cmp a b c d ≡ Greater) ↔ IsLess c d a b }
{}

/// Each text has exactly one reading as a scenario: one list of rows that it spells, or one first
/// fault.
pub fn one_reading()
    ensures some { (text : List ℕ) → ((rows : List Query) × ScenText rows text)
        ⊎ ((f : ScenFault) × IsFirstFault ScenFaultAt f text) }
    ensures one_scenario { (text : List ℕ) (m n : List Query) → ScenText m text
        → ScenText n text → m ≡ n }
    ensures one_fault { (text : List ℕ) (f g : ScenFault) → IsFirstFault ScenFaultAt f text
        → IsFirstFault ScenFaultAt g text → f ≡ g }
    ensures never_both { (text : List ℕ) (rows : List Query) (f : ScenFault) → ScenText rows text
        → IsFirstFault ScenFaultAt f text → ⊥ }
{
    text_io::laws::places();
}

/// The text that is written for rows within their limits spells those rows, and no others.
pub fn written_text()
    ensures spells { (rows : List Query) → AllByRecursion IsQuery rows
        → ScenText rows (canonical_scen_text rows) }
    ensures only { (rows others : List Query) → AllByRecursion IsQuery rows
        → ScenText others (canonical_scen_text rows) → others ≡ rows }
{
    text_io::laws::places();
}
