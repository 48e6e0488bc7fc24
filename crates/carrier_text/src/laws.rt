//! What the definitions of lines mean: laws, which hold of all values and need no code.
ghost use Rattle.std.specs.Prelude.{◌≡◌, ℕ, List};
ghost use Rattle.carrier_text.specs.CarrierLines.{CarrierEvent, SpellsCarrierEvent};

/// A line says one thing at the most.
pub fn one_event()
    ensures { (line : List ℕ) (one other : CarrierEvent) → SpellsCarrierEvent one line
        → SpellsCarrierEvent other line → one ≡ other }
{}
