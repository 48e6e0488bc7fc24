//! What the definitions mean: laws, which need no code.
ghost use Rattle.std.specs.Prelude.{◌≡◌, ℕ, List, Some, All, map, slice_get};
ghost use Rattle.grid.specs.declared.cell.Cell.{Cell};
ghost use Rattle.model.specs.declared.visit.Visit.{Visit};
ghost use Rattle.model.specs.Plan.{Course, Plan, IsTimetableOf};
ghost use Rattle.model.specs.Timetable.{Timetable, cell_at};
ghost use Rattle.plan_commands.specs.CellVisitsText.{AreCellVisits, IsVisitWithinWidths};
ghost use Rattle.plan_commands.specs.CellVisitsText.{visits_text};
ghost use Rattle.plan_commands.specs.PathText.{AreCellRows, AreWithinWidths, path_text};

/// A cell has one list of visits in a timetable, and a text is that of one list at most.
pub fn cell_visits()
    ensures one_list { (tt : Timetable) (cell : Cell) (visits others : List Visit)
        → AreCellVisits tt cell visits → AreCellVisits tt cell others → visits ≡ others }
    ensures one_reading { (visits others : List Visit) → All IsVisitWithinWidths visits
        → All IsVisitWithinWidths others → visits_text visits ≡ visits_text others
        → visits ≡ others }
{}

/// Courses have one list of rows, which for those of a plan are the cells of its timetable; and a
/// text is that of one list at most.
pub fn positions()
    ensures one_list { (courses : List Course) (rows others : List (List Cell))
        → AreCellRows courses rows → AreCellRows courses others → rows ≡ others }
    ensures timetable { (p : Plan) (tt : Timetable) (rows : List (List Cell)) → IsTimetableOf p tt
        → AreCellRows p.courses rows
        → (t : ℕ) (cells : List Cell) → slice_get rows t ≡ Some cells
        → cells ≡ map (λ track. cell_at track t) tt.tracks }
    ensures one_reading { (rows others : List (List Cell)) → AreWithinWidths rows
        → AreWithinWidths others → path_text rows ≡ path_text others → rows ≡ others }
{}
