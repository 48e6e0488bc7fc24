//! What the definitions mean: laws, which need no code.
ghost use Rattle.std.specs.Prelude.{◌≡◌, List};
ghost use Rattle.model.specs.Timetable.{Timetable};
ghost use Rattle.depgraph.specs.Rotations.{Turn, AreRotations};
ghost use Rattle.depgraph.specs.Visits.{Visited, AreAllVisits};

/// A timetable has no more than one list of all visits, and one of all rotations.
pub fn listings()
    ensures visits { (tt : Timetable) (cells others : List Visited) → AreAllVisits tt cells
        → AreAllVisits tt others → cells ≡ others }
    ensures rotations { (tt : Timetable) (turns others : List Turn) → AreRotations tt turns
        → AreRotations tt others → turns ≡ others }
{}
