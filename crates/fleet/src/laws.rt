//! What is promised of agents that each run by themselves: laws, which hold of every fleet and need
//! no code.
ghost use Rattle.std.specs.Prelude.{◌≡◌, ℕ, false, ◌+◌, ◌*◌, ◌<◌, ◌≤◌, ◌⊎◌};
ghost use Rattle.std.specs.Prelude.{List, [], ◌∷◌, ◌++◌, length, Some, Result, Ok};
ghost use Rattle.std.specs.Prelude.{slice_get, sum_by};
ghost use Rattle.grid.specs.declared.cell.Cell.{Cell};
ghost use Rattle.grid.specs.Map.{Grid};
ghost use Rattle.model.specs.declared.held.Held.{Held};
ghost use Rattle.model.specs.declared.version.Version.{Version};
ghost use Rattle.model.specs.Dependency.{need, IsMet, IsRotation};
ghost use Rattle.model.specs.History.{History};
ghost use Rattle.model.specs.Messages.{Message, told, own_message, message_bytes, told_bytes};
ghost use Rattle.model.specs.Plan.{Plan, IsValid, IsTimetableOf};
ghost use Rattle.model.specs.Rules.{IsRun};
ghost use Rattle.model.specs.Timetable.{Track, Timetable, moves, moves_before};
ghost use Rattle.model.specs.Timetable.{track_of, IsConflictFree, IsSwapFree};
ghost use Rattle.plan_text.specs.Limits.{IsPlan};
ghost use Rattle.agent.specs.Agents.{AgentOn, state_of, Starts, Finishes};
ghost use Rattle.agent.specs.Agents.{Says, TellsAll, Hears, HearsFrom, HearsOf, IsHolding};
ghost use Rattle.agent.specs.Opening.{IsOpened, Restarts};
ghost use Rattle.agent.specs.Ahead.{LooksAhead};
ghost use Rattle.agent.specs.States.{State, finished_moves, begun_moves, held_by_tape};
ghost use Rattle.agent.specs.Tape.{whole_records};
ghost use Rattle.agent.specs.Tellings.{Telling, IsInRange, BytesTell};
ghost use Rattle.agent.specs.declared.finished.Finished.{Finished};
ghost use Rattle.agent.specs.declared.refusal.HearFault.{HearFault};
ghost use Rattle.agent.specs.declared.refusal.Refusal.{Refusal};
ghost use Rattle.agent.specs.declared.refusal.TellFault.{TellFault};
ghost use Rattle.continuing.specs.Continuing.{Continues, IsChain, last_plan};
ghost use Rattle.fleet.specs.Deeds.{Deed, opens, starts, finishes, says};
ghost use Rattle.fleet.specs.Deeds.{tells, hears, holds, looks, Does};
ghost use Rattle.fleet.specs.Fleets.{Log, spoken, IsHonest, AreAll, IsFleet, with_state};
ghost use Rattle.fleet.specs.Fleets.{IsOfVersion, IsTellable};
ghost use Rattle.fleet.specs.Unsaid.{LeavesUnsaid};
ghost use Rattle.fleet.specs.Ahead.{reach, IsSafeAhead, AreLooksWithin, HaveStopped};
ghost use Rattle.fleet.specs.FleetSafety.{IsFleetSafe};
ghost use Rattle.fleet.specs.Members.{IsLeftBy};
ghost use Rattle.fleet.specs.OwnPlans.{Doings, log_of, AreLedOn, IsFleetBy};
ghost use Rattle.fleet.specs.OwnPlans.{SharesMoves, IsOfChain, LeavesOut, StandsAs};
ghost use Rattle.fleet.specs.Retelling.{Retells};
ghost use Rattle.fleet.specs.Rounds.{IsRound, HasRounds, HaveAllArrived};

use agent::Tape;

/// Whatever the agents of a fleet do, each by itself, there is one run with these events and
/// answers, and at it each of them stands where its own calls have led it. All its messages are of
/// one version here. What was refused and nobody had said is no event of the run.
pub fn fleets_are_runs()
    ensures { (version : Version) (tt : Timetable) (log : Log) (states : ℕ → State) → IsTellable tt
        → AreAll (IsOfVersion version) log → IsFleet tt log states
        → (kept : Log) × LeavesUnsaid log kept
        × (h : History) × IsRun version tt h × Retells kept h
        × ((i : ℕ) (track : Track) → track_of tt i ≡ Some track
        → IsLeftBy version tt h i (states i)) }
{
    model::laws::messages_of_runs();
    agent::laws::tellings();
}

/// So after each deed of a fleet that drives a plan which the checker accepts no two agents hold a
/// common cell, a moving agent holding both its cells, no two exchange cells, and each walk is a
/// beginning of its planned path.
pub fn every_fleet_is_safe()
    ensures { (map : Grid) (plan : Plan) (tt : Timetable) (log : Log)
        (states : ℕ → State) → IsPlan plan → IsValid map plan → IsTimetableOf plan tt
        → IsFleet tt log states → IsFleetSafe tt log states }
{
    model::laws::timetables();
    model::laws::met_needs_keep_apart();
    agent::laws::tellings();
}

/// A fleet goes on by each deed of one of its agents that answers as its contract says, and hears
/// what was said or refuses it; nothing changes of the other agents.
pub fn fleets_go_on()
    ensures { (tt : Timetable) (log : Log) (states : ℕ → State) (i : ℕ)
        (track : Track) (deed : Deed) (new : State) → IsFleet tt log states
        → track_of tt i ≡ Some track → IsHonest (spoken log) deed
        → Does tt i track (states i) deed new
        → IsFleet tt (record { agent = i; deed = deed } ∷ log) (with_state states i new) }
{}

/// Where there is no rotation, every round brings a fleet on: all have arrived, or more is stored
/// of some agent's moves, and what is stored stays. So all have arrived after at most twice as many
/// rounds as there are moves, whatever happens between them.
pub fn rounds()
    ensures comes_on { (tt : Timetable) (log : Log) (old : ℕ → State) (during : Log)
        (new : ℕ → State) → IsConflictFree tt → IsSwapFree tt
        → ((step : ℕ) (agents : List ℕ) → IsRotation tt step agents → ⊥)
        → IsFleet tt log old → IsRound tt old during new
        → HaveAllArrived tt old
        ⊎ ((i : ℕ) × (i < length tt.tracks) × ((old i).records < (new i).records)) }
    ensures ends { (tt : Timetable) (n : ℕ) (log : Log) (states : ℕ → State) → IsConflictFree tt
        → IsSwapFree tt
        → ((step : ℕ) (agents : List ℕ) → IsRotation tt step agents → ⊥)
        → IsFleet tt log states → HasRounds tt n states → 2 * sum_by moves tt.tracks ≤ n
        → HaveAllArrived tt states }
{}

/// A fleet whose processes run by plans of their own is one of a last plan, as long as each
/// process, at each move that it begins, runs by a plan in which everybody is, up to the end of
/// that move, where the last plan has them. Its answers are those of the last plan but for some
/// that moved nobody: refusals that hang on the end of a plan, and starts whose write failed, with
/// what was refused then. Where nobody is broken, it is from there on a fleet of the last plan, to
/// which all other laws apply.
pub fn fleets_of_plans()
    ensures kept { (last : Timetable) (doings : Doings) (states : ℕ → State)
        → IsTellable last → IsFleetBy (SharesMoves last) doings states
        → (kept : Log) × (others : ℕ → State)
        × (LeavesOut (log_of doings) kept × IsFleet last kept others
        × ((i : ℕ) → StandsAs (states i) (others i))) }
    ensures whole { (last : Timetable) (doings : Doings) (states : ℕ → State)
        → IsTellable last → IsFleetBy (SharesMoves last) doings states
        → ((i : ℕ) → (states i).broken ≡ false) → (kept : Log) × LeavesOut (log_of doings) kept
        × IsFleet last kept states }
{
    agent::laws::tellings();
}

/// So it is safe, where the checker accepts the last plan.
pub fn changing_fleets_are_safe()
    ensures { (map : Grid) (plan : Plan) (last : Timetable) (doings : Doings)
        (states : ℕ → State) → IsPlan plan → IsValid map plan → IsTimetableOf plan last
        → IsFleetBy (SharesMoves last) doings states
        → IsFleetSafe last (log_of doings) states }
{
    model::laws::timetables();
    agent::laws::tellings();
    every_fleet_is_safe();
}

/// A fleet may be extended: each process runs by some plan of a chain, each of which goes on from
/// the one before, whoever has which of them, and whoever restarts with an older one that has the
/// moves on its tape.
pub fn extending()
    ensures { (map : Grid) (plan : Plan) (plans : List Plan) (last : Timetable)
        (doings : Doings) (states : ℕ → State) → IsChain plan plans
        → IsValid map (last_plan plan plans) → IsTimetableOf (last_plan plan plans) last
        → IsFleetBy (IsOfChain plan plans) doings states
        → IsFleetBy (SharesMoves last) doings states }
{
    continuing::laws::chains_of_plans();
}

/// What was given out may be taken back: where nobody's tape has more than a cut of the old plan,
/// any plan that goes on from the cut may follow, as long as nobody runs by the old one from then
/// on, unless it shares with the new one what is begun.
pub fn taking_back()
    ensures { (cut old new : Plan) (left before last : Timetable)
        (earlier later : Doings) (mid states : ℕ → State) → Continues cut old → Continues cut new
        → IsTimetableOf cut left → IsTimetableOf old before → IsTimetableOf new last
        → IsFleetBy (SharesMoves before) earlier mid
        → ((i : ℕ) (track : Track) → track_of left i ≡ Some track
        → begun_moves (mid i) ≤ moves track)
        → AreLedOn (SharesMoves last) (spoken (log_of earlier)) mid later states
        → IsFleetBy (SharesMoves last) (later ++ earlier) states }
{
    continuing::laws::moves_stay();
}

/// Nobody says that an agent has finished more moves than its own tape has. So an agent that hears
/// so has an older tape than its own, or somebody forges.
pub fn no_tape_is_behind()
    ensures fleet { (tt : Timetable) (log : Log) (states : ℕ → State) (i : ℕ)
        (track : Track) (m : ℕ) (bytes : List ℕ) (t : Telling) → IsTellable tt
        → IsFleet tt log states → track_of tt i ≡ Some track
        → slice_get (spoken log) m ≡ Some bytes → BytesTell bytes t
        → told t.message i ≤ finished_moves (states i) }
    ensures of_plans { (last : Timetable) (doings : Doings) (states : ℕ → State)
        (i : ℕ) (track : Track) (m : ℕ) (bytes : List ℕ) (t : Telling) → IsTellable last
        → IsFleetBy (SharesMoves last) doings states → track_of last i ≡ Some track
        → slice_get (spoken (log_of doings)) m ≡ Some bytes → BytesTell bytes t
        → told t.message i ≤ finished_moves (states i) }
{
    agent::laws::tellings();
}

/// Drives may go ahead of their agents' tapes: as far as a way was told to be free since the drive
/// stopped last. No two are in one cell then, wherever each is between the last move that is
/// finished by its tape and the furthest one that it was told of, whoever restarts meanwhile and
/// forgets what it heard. So it is of a fleet that goes over to a last plan, where each such way
/// was told to be free by a plan that has everybody where the last one has them, up to the end of
/// that way.
pub fn ahead_of_tapes()
    ensures fleet { (map : Grid) (plan : Plan) (tt : Timetable) (log : Log)
        (states : ℕ → State) → IsPlan plan → IsValid map plan → IsTimetableOf plan tt
        → IsFleet tt log states → IsSafeAhead tt log states }
    ensures of_plans { (map : Grid) (plan : Plan) (last : Timetable)
        (doings : Doings) (states : ℕ → State) → IsPlan plan → IsValid map plan
        → IsTimetableOf plan last
        → IsFleetBy (SharesMoves last) doings states
        → AreLooksWithin last [] doings → IsSafeAhead last (log_of doings) states }
{
    model::laws::timetables();
    model::laws::met_needs_keep_apart();
    agent::laws::tellings();
}

/// Wherever a drive is ahead of its tape, each move that it may have begun has its need met by what
/// is finished by the tapes. So a robot that is lost is to be looked for along its path, from what
/// is finished by its own tape on, and no further than that.
pub fn lost_drives()
    ensures fleet { (tt : Timetable) (log : Log) (states : ℕ → State) (i k : ℕ) (track : Track)
        → IsTellable tt → IsFleet tt log states → track_of tt i ≡ Some track
        → k < reach log states i
        → IsMet (λ j. finished_moves (states j)) (need tt i track k) }
    ensures of_plans { (last : Timetable) (doings : Doings) (states : ℕ → State) (i k : ℕ)
        (track : Track) → IsTellable last → IsFleetBy (SharesMoves last) doings states
        → AreLooksWithin last [] doings → track_of last i ≡ Some track
        → k < reach (log_of doings) states i
        → IsMet (λ j. finished_moves (states j)) (need last i track k) }
{
    agent::laws::tellings();
}

/// No agent of a fleet begins a move of a rotation, whatever happens, nor more moves than it has.
pub fn rotations_stay_closed()
    ensures fleet { (tt : Timetable) (log : Log) (states : ℕ → State) (step : ℕ) (agents : List ℕ)
        (place i : ℕ) (track : Track) → IsTellable tt → IsConflictFree tt
        → IsRotation tt step agents → IsFleet tt log states → slice_get agents place ≡ Some i
        → track_of tt i ≡ Some track → begun_moves (states i) ≤ moves_before track step }
    ensures of_plans { (last : Timetable) (doings : Doings) (states : ℕ → State) (step : ℕ)
        (agents : List ℕ) (place i : ℕ) (track : Track) → IsTellable last → IsConflictFree last
        → IsRotation last step agents → IsFleetBy (SharesMoves last) doings states
        → slice_get agents place ≡ Some i → track_of last i ≡ Some track
        → begun_moves (states i) ≤ moves_before track step }
    ensures within { (tt : Timetable) (log : Log) (states : ℕ → State) (i : ℕ) (track : Track)
        → IsTellable tt → IsFleet tt log states → track_of tt i ≡ Some track
        → begun_moves (states i) ≤ moves track }
    ensures within_last { (last : Timetable) (doings : Doings) (states : ℕ → State) (i : ℕ)
        (track : Track) → IsTellable last → IsFleetBy (SharesMoves last) doings states
        → track_of last i ≡ Some track → begun_moves (states i) ≤ moves track }
{
    model::laws::needs();
    agent::laws::tellings();
    fleets_of_plans();
}

/// A fleet whose drives went ahead may turn to another way: where every drive stopped, and its tape
/// was brought up to it, before anybody ran by a plan that goes on otherwise behind a cut, no two
/// are in one cell at any time from then on, whatever was told to be free before.
pub fn turning()
    ensures { (map : Grid) (cut old new : Plan) (left before last : Timetable)
        (earlier later : Doings) (mid states : ℕ → State) → IsPlan new → IsValid map new
        → Continues cut old → Continues cut new
        → IsTimetableOf cut left → IsTimetableOf old before → IsTimetableOf new last
        → IsFleetBy (SharesMoves before) earlier mid → HaveStopped (log_of earlier)
        → ((i : ℕ) (track : Track) → track_of left i ≡ Some track
        → begun_moves (mid i) ≤ moves track)
        → AreLedOn (SharesMoves last) (spoken (log_of earlier)) mid later states
        → AreLooksWithin last [] later → IsSafeAhead last (log_of (later ++ earlier)) states }
{
    taking_back();
    ahead_of_tapes();
}

/// What each call of an agent answers is a deed that leads it from the state before to the state
/// after, over any tape: so an agent whose answers are told has told its part of what its fleet
/// did. A tape is opened by a process with as many records as the one before left on it. What is
/// heard in another form than bytes is heard as the bytes that spell it; entries that are refused
/// change nothing.
pub fn calls_are_deeds<T: Tape>()
    ensures opens { (tt : Timetable) (i : ℕ) (tape : T) (agent : AgentOn T) (before : State)
        → IsOpened T.state T.may_read tt i tape agent
        → before.records ≡ whole_records (T.state tape)
        → (track : Track) × (track_of tt i ≡ Some track)
        × Does tt i track before
        (opens (held_by_tape track (state_of T.state agent))
        (finished_moves (state_of T.state agent))) (state_of T.state agent) }
    ensures starts { (tt : Timetable) (old new : AgentOn T) (answer : Result Cell Refusal)
        → Starts T.state T.may_write tt old new answer
        → (track : Track) × (track_of tt old.part.agent ≡ Some track)
        × Does tt old.part.agent track (state_of T.state old) (starts answer)
        (state_of T.state new) }
    ensures finishes { (tt : Timetable) (old new : AgentOn T) (answer : Result Cell Refusal)
        → Finishes T.state T.may_write tt old new answer
        → (track : Track) × (track_of tt old.part.agent ≡ Some track)
        × Does tt old.part.agent track (state_of T.state old) (finishes answer)
        (state_of T.state new) }
    ensures says { (tt : Timetable) (a : AgentOn T) (track : Track)
        (answer : Result (List ℕ) Refusal) → Says T.state tt a answer
        → Does tt a.part.agent track (state_of T.state a) (says answer) (state_of T.state a) }
    ensures tells { (tt : Timetable) (a : AgentOn T) (track : Track)
        (answer : Result (List ℕ) TellFault) → TellsAll T.state tt a answer
        → Does tt a.part.agent track (state_of T.state a) (tells answer) (state_of T.state a) }
    ensures hears { (tt : Timetable) (old new : AgentOn T) (track : Track) (bytes : List ℕ)
        (answer : Result (ℕ × ℕ) HearFault) → Hears T.state tt old new bytes answer
        → Does tt old.part.agent track (state_of T.state old) (hears bytes answer)
        (state_of T.state new) }
    ensures holds { (tt : Timetable) (a : AgentOn T) (what : Held) → IsHolding T.state tt a what
        → (track : Track) × (track_of tt a.part.agent ≡ Some track)
        × Does tt a.part.agent track (state_of T.state a)
        (holds what (finished_moves (state_of T.state a))) (state_of T.state a) }
    ensures looks { (tt : Timetable) (a : AgentOn T) (most count : ℕ)
        → LooksAhead T.state tt a most count
        → (track : Track) × (track_of tt a.part.agent ≡ Some track)
        × Does tt a.part.agent track (state_of T.state a)
        (looks (begun_moves (state_of T.state a)) most count) (state_of T.state a) }
    ensures restarts { (tt : Timetable) (old new : AgentOn T) (track : Track) (done : Unit)
        → Restarts T.state T.may_read old new (Ok done)
        → Does tt old.part.agent track (state_of T.state old)
        (opens (held_by_tape track (state_of T.state old)) (finished_moves (state_of T.state old)))
        (state_of T.state new) }
    ensures hears_finished { (tt : Timetable) (old new : AgentOn T) (track : Track) (f : Finished)
        (answer : Result (ℕ × ℕ) HearFault)
        → IsInRange (record { plan = f.plan; message = own_message f.from f.done })
        → HearsFrom T.state tt old new f answer
        → Does tt old.part.agent track (state_of T.state old)
        (hears (message_bytes f.plan f.from f.done) answer) (state_of T.state new) }
    ensures hears_entries { (tt : Timetable) (old new : AgentOn T) (track : Track)
        (message : Message) (answer : ℕ × ℕ)
        → IsInRange (record { plan = tt.number; message = message })
        → HearsOf T.state tt old new message (Ok answer)
        → Does tt old.part.agent track (state_of T.state old)
        (hears (told_bytes tt.number message) (Ok answer)) (state_of T.state new) }
{
    agent::laws::tellings();
}

/// A tape that was opened has no more than its plan's moves, and no deed by that plan goes past
/// them. So what has to be seen to of a plan is only that the moves which a tape has are those of
/// the last plan too.
pub fn tapes_stay_within<T: Tape>()
    ensures opened { (tt : Timetable) (i : ℕ) (track : Track) (tape : T) (agent : AgentOn T)
        → IsOpened T.state T.may_read tt i tape agent → track_of tt i ≡ Some track
        → (state_of T.state agent).records ≤ 2 * moves track }
    ensures led { (tt : Timetable) (i : ℕ) (track : Track) (old : State) (deed : Deed) (new : State)
        → old.records ≤ 2 * moves track → Does tt i track old deed new
        → new.records ≤ 2 * moves track }
{}
