//! What is promised of control loops: laws, which hold of whatever happens to a robot and need no
//! code.
ghost use Rattle.std.specs.Prelude.{◌≡◌, ℕ, ◌<◌, ◌⊎◌, List, ◌++◌, length, Some};
ghost use Rattle.model.specs.Dependency.{IsRotation};
ghost use Rattle.model.specs.Plan.{Plan};
ghost use Rattle.model.specs.Timetable.{Track, Timetable, track_of, IsConflictFree, IsSwapFree};
ghost use Rattle.agent.specs.States.{State, begun_moves, finished_moves};
ghost use Rattle.fleet.specs.Deeds.{Deed, DoesAll};
ghost use Rattle.fleet.specs.Fleets.{Log, spoken, IsFleet, with_state};
ghost use Rattle.fleet.specs.OwnPlans.{Doings, log_of, IsFleetBy, SharesMoves, IsOfChain};
ghost use Rattle.fleet.specs.Rounds.{HaveAllArrived};
ghost use Rattle.controller.specs.declared.command.Command.TheVariants.{Go};
ghost use Rattle.controller.specs.declared.command.Way.{Way};
ghost use Rattle.controller.specs.declared.controller.Settings.{Settings};
ghost use Rattle.controller.specs.Loops.{AreDeeds, RobotEvent, HasComeTo, KnowsDrive};
ghost use Rattle.controller.specs.Loops.{WasSaidBefore, LeadsRobot, done_behind};
ghost use Rattle.controller.specs.Loops.{logged_behind, sent_in};
ghost use Rattle.controller.specs.Loops.{IsDueToGo, IsDueToFinish, IsDueToStart};
ghost use Rattle.controller.specs.Robots.{Robot};
ghost use Rattle.controller.specs.Steps.{WorksOn};
ghost use Rattle.controller.specs.Turns.{HaveTurns};

use agent::MemTape;

/// Whatever happens to a robot, its agent does one deed at the most, by its own calls. It hears
/// what came from outside, and what it says is sent. The drive is let go no further than the agent
/// was told that its way is free. So robots that run such loops are a fleet, and all laws of
/// `fleet` are of them.
pub fn loops_are_agents()
    ensures { (settings : Settings) (tt : Timetable) (i : ℕ) (track : Track) (old : Robot)
        (event : RobotEvent) (new : Robot) → LeadsRobot settings tt i track old event new
        → (deeds : List Deed) × AreDeeds event deeds
        × DoesAll tt i track old.state deeds new.state }
{}

/// So a fleet whose robots run such loops goes on as one, whatever happens to one of them: if what
/// its agent heard was said before, it's a fleet of `fleet::laws` again, by the deeds of the agent.
/// What is sent then counts as said. So it is too of a fleet that goes over to a last plan.
pub fn loops_lead_fleets()
    ensures fleet { (settings : Settings) (tt : Timetable) (log : Log) (states : ℕ → State)
        (i : ℕ) (track : Track) (old : Robot) (event : RobotEvent) (new : Robot)
        → IsFleet tt log states → track_of tt i ≡ Some track → old.state ≡ states i
        → LeadsRobot settings tt i track old event new → WasSaidBefore (spoken log) event
        → (deeds : List Deed) × AreDeeds event deeds
        × IsFleet tt (logged_behind i deeds log) (with_state states i new.state)
        × (spoken (logged_behind i deeds log) ≡ spoken log ++ sent_in event) }
    ensures of_plans { (settings : Settings) (last by : Timetable) (doings : Doings)
        (states : ℕ → State) (i : ℕ) (track : Track) (old : Robot) (event : RobotEvent)
        (new : Robot) → IsFleetBy (SharesMoves last) doings states → track_of by i ≡ Some track
        → old.state ≡ states i → LeadsRobot settings by i track old event new
        → SharesMoves last by i track (begun_moves new.state)
        → WasSaidBefore (spoken (log_of doings)) event
        → (deeds : List Deed) × AreDeeds event deeds
        × IsFleetBy (SharesMoves last) (done_behind by i deeds doings)
        (with_state states i new.state)
        × (spoken (log_of (done_behind by i deeds doings))
        ≡ spoken (log_of doings) ++ sent_in event) }
    ensures of_chain { (settings : Settings) (plan : Plan) (plans : List Plan) (by : Timetable)
        (doings : Doings) (states : ℕ → State) (i : ℕ) (track : Track) (old : Robot)
        (event : RobotEvent) (new : Robot) → IsFleetBy (IsOfChain plan plans) doings states
        → track_of by i ≡ Some track → old.state ≡ states i
        → LeadsRobot settings by i track old event new
        → IsOfChain plan plans by i track (begun_moves new.state)
        → WasSaidBefore (spoken (log_of doings)) event
        → (deeds : List Deed) × AreDeeds event deeds
        × IsFleetBy (IsOfChain plan plans) (done_behind by i deeds doings)
        (with_state states i new.state)
        × (spoken (log_of (done_behind by i deeds doings))
        ≡ spoken (log_of doings) ++ sent_in event) }
{
    fleet::laws::fleets_go_on();
}

/// Whatever happened since the tape was opened, the loop knows in which place its drive is only if
/// the drive's last report fits that place, and no other one in which the drive may be.
pub fn loops_know_their_drives()
    ensures { (settings : Settings) (tt : Timetable) (i : ℕ) (track : Track)
        (happened : List RobotEvent) (now : Robot) → track_of tt i ≡ Some track
        → HasComeTo settings tt i track happened now → KnowsDrive track happened now }
{
    fleet::laws::tapes_stay_within::<MemTape>();
}

/// Whatever happened since the tape was opened, the loop lets its drive go along the path alone: up
/// to the end of the moves that the tape has as begun, and to places that the agent found free. It
/// does so only if it has listened, and the last report has the drive in the tape's place or
/// further. The loop stores that a move is finished only if the last report has the drive at the
/// move's end or further. It stores that a move begins only if the last report has the drive in the
/// tape's place or further. If its tape is an older one, or it couldn't store a record, it does
/// none of this. If it was stopped, or still listens, it begins no move that its drive has not
/// begun.
pub fn loops_keep_their_drives_in()
    ensures go { (settings : Settings) (tt : Timetable) (i : ℕ) (track : Track)
        (happened : List RobotEvent) (before : Robot) (way : Way) (after : Robot)
        → track_of tt i ≡ Some track → HasComeTo settings tt i track happened before
        → WorksOn settings tt i track before (Some (Go way)) after
        → IsDueToGo track happened before way after }
    ensures finish { (settings : Settings) (tt : Timetable) (i : ℕ) (track : Track)
        (happened : List RobotEvent) (before : Robot) (event : RobotEvent) (after : Robot)
        → track_of tt i ≡ Some track → HasComeTo settings tt i track happened before
        → LeadsRobot settings tt i track before event after
        → finished_moves before.state < finished_moves after.state
        → IsDueToFinish track happened before }
    ensures start { (settings : Settings) (tt : Timetable) (i : ℕ) (track : Track)
        (happened : List RobotEvent) (before : Robot) (event : RobotEvent) (after : Robot)
        → track_of tt i ≡ Some track → HasComeTo settings tt i track happened before
        → LeadsRobot settings tt i track before event after
        → begun_moves before.state < begun_moves after.state
        → IsDueToStart track happened before }
{
    fleet::laws::tapes_stay_within::<MemTape>();
}

/// Where there is no rotation, a round of turns brings a fleet of loops on: all have arrived, or
/// more is stored of some robot's moves. Messages may be of both versions, and robots may begin the
/// round anywhere on their ways.
pub fn loops_come_on()
    ensures { (settings : ℕ → Settings) (tt : Timetable) (old new : ℕ → Robot)
        → IsConflictFree tt → IsSwapFree tt
        → ((step : ℕ) (agents : List ℕ) → IsRotation tt step agents → ⊥)
        → HaveTurns settings tt old new → HaveAllArrived tt (λ i. (old i).state)
        ⊎ ((i : ℕ) × (i < length tt.tracks)
        × ((old i).state.records < (new i).state.records)) }
{
    fleet::laws::tapes_stay_within::<MemTape>();
}
