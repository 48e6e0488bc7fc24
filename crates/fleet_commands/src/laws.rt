//! What it comes to that a plan is handed over, and that tapes are those of one run: laws, which
//! hold of all plans and need no code.
ghost use Rattle.std.specs.Prelude.{◌≡◌, ◌+◌, ◌<◌, ◌≤◌, ◌⊎◌, ℕ, false, List, [], length, map};
ghost use Rattle.std.specs.Prelude.{Option, None, Some, slice_get};
ghost use Rattle.grid.specs.declared.cell.Cell.{Cell};
ghost use Rattle.grid.specs.Map.{Grid, IsMap, IsPassable, with_blocked};
ghost use Rattle.model.specs.Dependency.{IsRotation};
ghost use Rattle.model.specs.Plan.{Plan, IsTimetableOf, IsValid};
ghost use Rattle.model.specs.Rules.{path_cell};
ghost use Rattle.model.specs.Safety.{MayBeIn};
ghost use Rattle.model.specs.Timetable.{Track, Timetable, moves, track_of};
ghost use Rattle.model.specs.Timetable.{IsConflictFree, IsSwapFree};
ghost use Rattle.depgraph.specs.Rotations.{Turn, AreRotations};
ghost use Rattle.continuing.specs.Continuing.{cut_at};
ghost use Rattle.agent.specs.States.{State, finished_moves};
ghost use Rattle.fleet.specs.Ahead.{reach, AreLooksWithin};
ghost use Rattle.fleet.specs.Fleets.{Log, IsFleet, IsTellable};
ghost use Rattle.fleet.specs.OwnPlans.{Doings, log_of, IsFleetBy, SharesMoves};
ghost use Rattle.fleet_commands.specs.FoundTapes.{Found, AreWithinMoves, begun_by, finished_by};
ghost use Rattle.fleet_commands.specs.CutTimes.{HasAllBegun};
ghost use Rattle.fleet_commands.specs.HandoverCommand.{AreAllKnown};
ghost use Rattle.fleet_commands.specs.LeftPlan.{first_step, is_left_out, left_plan};
ghost use Rattle.fleet_commands.specs.LeftWays.{IsRestOf, number_before, number_left};
ghost use Rattle.fleet_commands.specs.LostPlaces.{AreTapesOf, IsFurthest};
ghost use Rattle.fleet_commands.specs.Standing.{keepers_of, kept_count, kept_now, waited_for};
ghost use Rattle.fleet_commands.specs.Standing.{waits_of};
ghost use Rattle.fleet_commands.specs.StatusText.{run_lines, status_lines};
ghost use Rattle.fleet_commands.specs.Waiting.{AreAllThatWait};
ghost use Rattle.fleet_commands.specs.declared.keeping.Keeping.TheVariants.{OwnMove, OwnEnd};
ghost use Rattle.fleet_commands.specs.declared.keeping.Keeping.TheVariants.{Nothing};
ghost use Rattle.fleet_commands.specs.declared.status_line.StatusLine.TheVariants.{Circle};

/// Where a plan is cut at a time by which all is made that was begun, no agent has begun more moves
/// than what is left has, nor has its tape more records than two a move: so the fleet may go over
/// to what is left, as `fleet::laws::taking_back` says.
pub fn cuts_have_all_begun()
    ensures begun { (p : Plan) (tt kept : Timetable) (found : List Found) (time i : ℕ)
        (track : Track) → IsTimetableOf p tt → IsTimetableOf (cut_at time p) kept
        → HasAllBegun tt found time → track_of kept i ≡ Some track
        → begun_by found i ≤ moves track }
    ensures within { (p : Plan) (tt kept : Timetable) (found : List Found) (time : ℕ)
        → IsTimetableOf p tt → IsTimetableOf (cut_at time p) kept
        → HasAllBegun tt found time → AreWithinMoves kept found }
{
    continuing::laws::cuts();
    continuing::laws::moves_stay();
}

/// A robot that is lost is in one of the cells that `mapf lost` names, where its fleet's tapes were
/// read when no agent ran any more: wherever its drive may be, also ahead of its tape, that is one
/// of the places from the end of its last finished move by its tape to the furthest.
pub fn lost_robots_are_near()
    ensures fleet { (tt : Timetable) (log : Log) (states : ℕ → State) (found : List Found)
        (i last : ℕ) (track : Track) (c : Cell) → IsTellable tt → IsFleet tt log states
        → AreTapesOf None found states → track_of tt i ≡ Some track
        → IsFurthest tt found i track last
        → MayBeIn tt (reach log states) (λ j. finished_moves (states j)) i c
        → (n : ℕ) × (finished_by found i ≤ n) × (n ≤ last) × (path_cell track n ≡ c) }
    ensures of_plans { (tt : Timetable) (doings : Doings) (states : ℕ → State) (found : List Found)
        (i last : ℕ) (track : Track) (c : Cell) → IsTellable tt
        → IsFleetBy (SharesMoves tt) doings states → AreLooksWithin tt [] doings
        → AreTapesOf None found states → track_of tt i ≡ Some track
        → IsFurthest tt found i track last
        → MayBeIn tt (reach (log_of doings) states) (λ j. finished_moves (states j)) i c
        → (n : ℕ) × (finished_by found i ≤ n) × (n ≤ last) × (path_cell track n ≡ c) }
{
    fleet::laws::lost_drives();
}

/// By the plan that `mapf anew` writes each agent walks the rest of its way. Behind the moves that
/// it has begun it makes the same ones, through the same cells, each in its step less one number,
/// which is the same for all.
pub fn what_is_left_is_the_rest()
    ensures { (p : Plan) (tt new : Timetable) (found : List Found) (without : Option ℕ)
        (number i : ℕ) (track : Track) → IsTimetableOf p tt → AreWithinMoves tt found
        → IsTimetableOf (left_plan p tt found without number) new
        → is_left_out without i ≡ false → track_of tt i ≡ Some track
        → (after : Track) × (track_of new (number_left without i) ≡ Some after)
        × IsRestOf (begun_by found i) (first_step tt found without) track after }
{}

/// That plan has no rotation that the old one had not: the agents of each are those of a rotation
/// of the old plan, so many steps later.
pub fn no_rotation_is_new()
    ensures { (p : Plan) (tt new : Timetable) (found : List Found) (without : Option ℕ)
        (number step : ℕ) (agents : List ℕ) → IsTimetableOf p tt → AreWithinMoves tt found
        → IsTimetableOf (left_plan p tt found without number) new → IsRotation new step agents
        → IsRotation tt (step + first_step tt found without)
        (map (number_before without) agents) }
{}

/// A fleet that stopped may always begin anew: `mapf anew` never answers `NotOneRun` of the tapes
/// that it left. Nothing shows that they are not those of one run, and what is left of its plan is
/// valid. So it is of a fleet that went over to this plan.
pub fn fleets_begin_anew()
    ensures fleet { (map : Grid) (p : Plan) (tt : Timetable) (log : Log) (states : ℕ → State)
        (found : List Found) (turns : List Turn) (without : Option ℕ) (number : ℕ)
        → IsTellable tt → IsValid map p → IsTimetableOf p tt → IsFleet tt log states
        → AreRotations tt turns
        → length found ≡ length tt.tracks → AreAllKnown without found
        → AreTapesOf without found states
        → (run_lines tt without turns found ≡ [])
        × IsValid map (left_plan p tt found without number) }
    ensures of_plans { (map : Grid) (p : Plan) (tt : Timetable) (doings : Doings)
        (states : ℕ → State) (found : List Found) (turns : List Turn) (without : Option ℕ)
        (number : ℕ) → IsTellable tt → IsValid map p → IsTimetableOf p tt
        → IsFleetBy (SharesMoves tt) doings states → AreRotations tt turns
        → length found ≡ length tt.tracks → AreAllKnown without found
        → AreTapesOf without found states
        → (run_lines tt without turns found ≡ [])
        × IsValid map (left_plan p tt found without number) }
{
    model::laws::timetables();
    model::laws::needs();
    model::laws::met_needs_keep_apart();
    fleet::laws::fleets_of_plans();
    fleet::laws::lost_drives();
    fleet::laws::rotations_stay_closed();
}

/// A line `root J keeps K` of `mapf status` counts just those agents that wait for agent J, which
/// waits for nobody: directly, or through others.
pub fn roots_keep_who_waits()
    ensures { (tt : Timetable) (found : List Found) (j : ℕ) → IsConflictFree tt
        → j < length tt.tracks → waited_for (kept_now tt found j) ≡ None
        → (agents : List ℕ) × AreAllThatWait tt found j agents
        × (length agents ≡ kept_count (keepers_of (waits_of tt found)) j) }
{
    model::laws::needs();
}

/// A fleet hangs in a rotation alone. Where all tapes are known and `mapf status` writes no line of
/// a rotation, somebody is moving or ready to move, or all have arrived.
pub fn somebody_can_go()
    ensures { (tt : Timetable) (turns : List Turn) (found : List Found) → IsConflictFree tt
        → IsSwapFree tt → AreRotations tt turns → length found ≡ length tt.tracks
        → AreAllKnown None found
        → ((place number keeps : ℕ)
        → slice_get (status_lines tt turns found) place ≡ Some (Circle number keeps) → ⊥)
        → ((i : ℕ) × (kept_now tt found i ≡ OwnMove))
        ⊎ (((i : ℕ) × (kept_now tt found i ≡ Nothing))
        ⊎ ((i : ℕ) → i < length tt.tracks → kept_now tt found i ≡ OwnEnd)) }
{}

/// By a valid plan nobody is ever in a cell that its map blocks, however far each has come. So on a
/// map with a cell blocked, as `mapf map --block` writes it, no plan leads anybody into that cell.
pub fn blocked_cells_stay_free()
    ensures passable { (map : Grid) (p : Plan) (tt : Timetable) (begun finished : ℕ → ℕ) (i : ℕ)
        (c : Cell) → IsValid map p → IsTimetableOf p tt → MayBeIn tt begun finished i c
        → IsPassable map c }
    ensures blocked { (map blocked : Grid) (p : Plan) (tt : Timetable) (begun finished : ℕ → ℕ)
        (i : ℕ) (c : Cell) → IsMap map → with_blocked map c ≡ Some blocked → IsValid blocked p
        → IsTimetableOf p tt → MayBeIn tt begun finished i c → ⊥ }
{
    grid::laws::blocked_cells();
}

/// Where nothing shows that tapes are not those of one run, and an agent is opened on each, no two
/// agents may be in one cell, wherever each is between the last move that it has finished by its
/// tape and the last one that it has begun.
pub fn tapes_of_one_run_keep_apart()
    ensures { (tt : Timetable) (turns : List Turn) (found : List Found) (i j : ℕ) (c : Cell)
        → IsConflictFree tt → length found ≡ length tt.tracks
        → AreWithinMoves tt found → AreAllKnown None found → run_lines tt None turns found ≡ []
        → MayBeIn tt (begun_by found) (finished_by found) i c
        → MayBeIn tt (begun_by found) (finished_by found) j c → i ≡ j }
{
    model::laws::met_needs_keep_apart();
    model::laws::needs();
}
