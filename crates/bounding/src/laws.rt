//! What the bounds of plans mean: a law, which holds of all plans and needs no code.
ghost use Rattle.std.specs.Prelude.{ℕ, List};
ghost use Rattle.grid.specs.Map.{Grid};
ghost use Rattle.model.specs.Timetable.{Track};
ghost use Rattle.bounding.specs.Bounding.{AreBounds, BoundsAll};

/// No valid plan whose agents have these ends costs less than the least steps of each of them by
/// itself.
pub fn bounds_hold()
    ensures { (m : Grid) (tracks : List Track) (bounds : List ℕ) → AreBounds m tracks bounds
        → BoundsAll m tracks bounds }
{}
