//! What it comes to that a plan goes on from another: laws, which hold of all plans and need no
//! code.
ghost use Rattle.std.specs.Prelude.{◌≡◌, ℕ, ◌+◌, ◌<◌, ◌≤◌, List, Some};
ghost use Rattle.grid.specs.Map.{Grid};
ghost use Rattle.model.specs.Dependency.{need};
ghost use Rattle.model.specs.Plan.{Plan, IsValid, longest_of, IsTimetableOf};
ghost use Rattle.model.specs.Timetable.{Track, Timetable, cell_at, moves};
ghost use Rattle.model.specs.Timetable.{moves_before, step_of, track_of};
ghost use Rattle.continuing.specs.declared.continue_fault.ContinueFault.{ContinueFault};
ghost use Rattle.continuing.specs.Departing.{IsContinueFault};
ghost use Rattle.continuing.specs.Continuing.{Continues, IsChain, last_plan, cut_at, AgreesUpTo};

/// A plan is valid where a valid one goes on from it.
pub fn valid_before()
    ensures { (map : Grid) (old new : Plan) → Continues old new → IsValid map new
        → IsValid map old }
{}

/// Where there is a fault the plan doesn't go on from the other, and there is one alone.
pub fn one_answer()
    ensures fault { (old new : Plan) (fault : ContinueFault) → IsContinueFault old new fault
        → Continues old new → ⊥ }
    ensures one { (old new : Plan) (f g : ContinueFault) → IsContinueFault old new f
        → IsContinueFault old new g → f ≡ g }
{}

/// A plan goes on from what is left of it where it is cut at a time, and nobody acts later than
/// that by what is left. Up to the time all agents are where the plan has them.
pub fn cuts()
    ensures continues { (plan : Plan) (time : ℕ) → Continues (cut_at time plan) plan }
    ensures ends { (plan : Plan) (time : ℕ) → longest_of (cut_at time plan).courses ≤ time }
    ensures agrees { (plan : Plan) (time : ℕ) (kept whole : Timetable)
        → IsTimetableOf (cut_at time plan) kept → IsTimetableOf plan whole
        → AgreesUpTo time kept whole }
{}

/// By a plan that goes on from another, every move of that one has the same number and the same
/// step, leads through the same cells, and waits for the same. A timetable that agrees with another
/// up to the end of the move's step is enough: the next one may change what comes after that.
pub fn moves_stay()
    ensures agrees { (old new : Plan) (before after : Timetable) → Continues old new
        → IsTimetableOf old before → IsTimetableOf new after
        → AgreesUpTo (longest_of old.courses) before after }
    ensures continues { (old new : Plan) (before after : Timetable)
        → AgreesUpTo (longest_of old.courses) before after → IsTimetableOf old before
        → IsTimetableOf new after → Continues old new }
    ensures in_time { (old : Plan) (before : Timetable) (i k : ℕ) (track : Track)
        → IsTimetableOf old before → track_of before i ≡ Some track → k < moves track
        → step_of track k < longest_of old.courses }
    ensures cells { (time : ℕ) (before after : Timetable) (i : ℕ) (track : Track)
        → AgreesUpTo time before after → track_of before i ≡ Some track
        → (other : Track) × (track_of after i ≡ Some other)
        × ((t : ℕ) → t ≤ time → (cell_at other t ≡ cell_at track t)
        × (moves_before other t ≡ moves_before track t)) }
    ensures moves { (time : ℕ) (before after : Timetable) (i k : ℕ) (track other : Track)
        → AgreesUpTo time before after
        → track_of before i ≡ Some track → track_of after i ≡ Some other → k < moves track
        → step_of track k < time
        → (k < moves other) × (step_of other k ≡ step_of track k)
        × (need after i other k ≡ need before i track k) }
{}

/// Of plans each of which goes on from the one before, where the last is valid, all are; and what
/// one of them has an agent move, the last does so too, at the same time: up to the end of that
/// step all agents are where the one plan has them, and they begin there. The last need not go on
/// from the first: what that only waits at its end may change.
pub fn chains_of_plans()
    ensures valid { (map : Grid) (plan : Plan) (plans : List Plan) → IsChain plan plans
        → IsValid map (last_plan plan plans) → IsValid map plan }
    ensures agrees { (map : Grid) (plan : Plan) (plans : List Plan) (before after : Timetable)
        (i k : ℕ) (track : Track) → IsChain plan plans
        → IsValid map (last_plan plan plans) → IsTimetableOf plan before
        → IsTimetableOf (last_plan plan plans) after → track_of before i ≡ Some track
        → k < moves track
        → AgreesUpTo (step_of track k + 1) before after }
    ensures begins { (map : Grid) (plan : Plan) (plans : List Plan) (before after : Timetable)
        → IsChain plan plans → IsValid map (last_plan plan plans)
        → IsTimetableOf plan before → IsTimetableOf (last_plan plan plans) after
        → AgreesUpTo 0 before after }
{
    model::laws::timetables();
    valid_before();
    moves_stay();
}
