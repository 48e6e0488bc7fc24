//! What the definitions mean: laws, which hold of all timetables and all runs, and need no code.
ghost use Rattle.std.specs.Prelude.{◌≡◌, ℕ, ◌+◌, ◌<◌, ◌≤◌, ◌↔◌, ◌*◌, ◌⊎◌};
ghost use Rattle.std.specs.Prelude.{◌==◌, ◌&&◌, ◌∷◌, ◌++◌, Bool, false, if◌then◌else◌, List};
ghost use Rattle.std.specs.Prelude.{[], length, max, None, Some, map, slice_get};
ghost use Rattle.grid.specs.declared.cell.Cell.{Cell};
ghost use Rattle.grid.specs.Map.{Grid};
ghost use Rattle.model.specs.declared.entry.Entry.{Entry};
ghost use Rattle.model.specs.declared.event.Event.{Event};
ghost use Rattle.model.specs.declared.event.Event.TheVariants.{Start, Finish, Say, Deliver};
ghost use Rattle.model.specs.declared.plan_fault.PlanFault.{PlanFault};
ghost use Rattle.model.specs.declared.version.Version.{Version};
ghost use Rattle.model.specs.declared.version.Version.TheVariants.{One};
ghost use Rattle.model.specs.Timetable.{Track, Timetable, moves, moves_before, step_of};
ghost use Rattle.model.specs.Timetable.{track_of, Stands, IsConflictFree, IsSwapFree};
ghost use Rattle.model.specs.Plan.{Course, Plan, HasPlanFault, IsValid, key_of};
ghost use Rattle.model.specs.Plan.{IsLeastFault, longest_of, IsTrackOf, IsTimetableOf};
ghost use Rattle.model.specs.Dependency.{Need, last_stand, need, IsMet, WaitsFor};
ghost use Rattle.model.specs.Dependency.{IsLastStand, IsNeed, IsVisit, HasEnded, IsRotation};
ghost use Rattle.model.specs.Messages.{Message, told_by, own_message};
ghost use Rattle.model.specs.Messages.{entries_from, message_bytes, AreRising};
ghost use Rattle.model.specs.History.{Answer, said, is_heard, History, armed_of, is_broken};
ghost use Rattle.model.specs.History.{kept_starts, done, is_moving, messages, known};
ghost use Rattle.model.specs.Rules.{say_answer, IsRun};
ghost use Rattle.model.specs.Speech.{WasSaid};
ghost use Rattle.model.specs.Safety.{IsSafe, HaveNeedsMet, MayBeIn};
ghost use Rattle.model.specs.Completion.{history_after, AreAccepted, IsCompletion, IsBlocked};
ghost use Rattle.model.specs.Ready.{IsReady, rest_events, ComesToRest, MovesOn, SpeaksUp, Learns};
ghost use Rattle.model.specs.Costs.{cost, IsCost, AllEndAtRest, Task, FitsFirst, SolvesAt};
ghost use Rattle.model.specs.Examples.{Faults, LeastFaults, Timetables, Paths, Rotations};
ghost use Rattle.model.specs.Examples.{Costs, Tasks, Visits, LastStands, Dependencies};
ghost use Rattle.model.specs.Examples.{Runs, Messages, Histories, Safety, Completions};

/// A plan has one least fault at the most, and that is not past the end of the longest course.
pub fn least_faults()
    ensures one { (m : Grid) (p : Plan) (f g : PlanFault) → IsLeastFault m p f
        → IsLeastFault m p g → f ≡ g }
    ensures in_time { (m : Grid) (p : Plan) (f : PlanFault) → IsLeastFault m p f
        → (key_of f).time ≤ longest_of p.courses }
{}

/// A valid plan has one timetable, in which no two agents are ever in one cell or exchange cells.
/// Its tracks end where the agents come to rest, no later than the acts do, so that it is known by
/// its number and by who stands where and when.
pub fn timetables()
    ensures some { (m : Grid) (p : Plan) → IsValid m p → (tt : Timetable) × IsTimetableOf p tt }
    ensures one { (p : Plan) (tt other : Timetable) → IsTimetableOf p tt → IsTimetableOf p other
        → tt ≡ other }
    ensures conflict_free { (m : Grid) (p : Plan) (tt : Timetable) → IsValid m p
        → IsTimetableOf p tt → IsConflictFree tt }
    ensures swap_free { (m : Grid) (p : Plan) (tt : Timetable) → IsValid m p → IsTimetableOf p tt
        → IsSwapFree tt }
    ensures at_rest { (p : Plan) (tt : Timetable) → IsTimetableOf p tt → AllEndAtRest tt }
    ensures no_longer { (course : Course) (track : Track) → IsTrackOf course track
        → length track.later ≤ length course.acts }
    ensures same_positions { (tt other : Timetable) → AllEndAtRest tt → AllEndAtRest other
        → tt.number ≡ other.number
        → length tt.tracks ≡ length other.tracks
        → ((i t : ℕ) (c : Cell) → Stands tt i t c → Stands other i t c) → tt ≡ other }
{}

/// Each list of events, the newest first, has exactly one run at each version.
pub fn runs_of_events()
    ensures some { (version : Version) (tt : Timetable) (events : List Event) → (h : History)
        × IsRun version tt h × (map (λ now. now.event) h ≡ events) }
    ensures one { (version : Version) (tt : Timetable) (h k : History) → IsRun version tt h
        → IsRun version tt k
        → map (λ now. now.event) h ≡ map (λ now. now.event) k → h ≡ k }
{}

/// In every run over a timetable without vertex conflicts, whatever the events are, each beginning
/// is safe.
pub fn every_run_is_safe()
    ensures { (version : Version) (tt : Timetable) (later earlier : History) → IsConflictFree tt
        → IsRun version tt (later ++ earlier) → IsSafe tt earlier }
{}

/// Safety by numbers of moves alone: where each begun move has its need met, no two agents may be
/// in one cell, wherever each is between the last move that it has finished and the last one that
/// it has begun, however many these are.
pub fn met_needs_keep_apart()
    ensures { (tt : Timetable) (begun finished : ℕ → ℕ) (i j : ℕ) (c : Cell) → IsConflictFree tt
        → HaveNeedsMet tt begun finished
        → MayBeIn tt begun finished i c → MayBeIn tt begun finished j c → i ≡ j }
{}

/// What an agent has finished stays finished, and what it has begun stays begun; no other knows
/// more of it than it has finished. In a run it has begun what it has finished and at most one move
/// more, and no more where it isn't moving.
pub fn counters()
    ensures never_falls { (later earlier : History) (i : ℕ)
        → done earlier i ≤ done (later ++ earlier) i }
    ensures starts_never_fall { (later earlier : History) (i : ℕ)
        → kept_starts earlier i ≤ kept_starts (later ++ earlier) i }
    ensures known { (version : Version) (tt : Timetable) (h : History) (i j : ℕ)
        → known version tt h i j ≤ done h j }
    ensures in_step { (version : Version) (tt : Timetable) (h : History) (i : ℕ)
        → IsRun version tt h → (done h i ≤ kept_starts h i) × (kept_starts h i ≤ done h i + 1) }
    ensures still { (version : Version) (tt : Timetable) (h : History) (i : ℕ) → IsRun version tt h
        → is_moving h i ≡ false → kept_starts h i ≡ done h i }
{}

/// Each message of a run is of an agent that there is and tells what that one knew then: each entry
/// is of an agent that there is, and of no more moves than that one had finished when the message
/// was said.
pub fn messages_of_runs()
    ensures { (version : Version) (tt : Timetable) (h : History) (m : ℕ) (message : Message)
        → IsRun version tt h
        → slice_get (messages version tt h) m ≡ Some message → WasSaid version tt h m message }
{}

/// The entries of so many agents from one on rise by agent, each with its own number above 0, and
/// leave out no such agent.
pub fn entries_of_agents()
    ensures rising { (number : ℕ → ℕ) (first count : ℕ)
        → AreRising first (entries_from number first count) }
    ensures own { (number : ℕ → ℕ) (first count e : ℕ) (entry : Entry)
        → slice_get (entries_from number first count) e ≡ Some entry
        → (first ≤ entry.agent) × (entry.agent < first + count)
        × (entry.done ≡ number entry.agent) }
    ensures all { (number : ℕ → ℕ) (first count j : ℕ) → first ≤ j → j < first + count
        → told_by (entries_from number first count) j ≡ number j }
    ensures few { (number : ℕ → ℕ) (first count : ℕ)
        → length (entries_from number first count) ≤ count }
{}

/// At version 1 a message tells of its sender alone, in twelve bytes, and an agent is known by its
/// own messages alone.
pub fn first_version()
    ensures own_entry { (tt : Timetable) (h : History) (m : ℕ) (message : Message)
        → slice_get (messages One tt h) m ≡ Some message
        → (done : ℕ) × (message ≡ own_message message.sender done) }
    ensures says { (tt : Timetable) (h : History) (i : ℕ) → is_broken h i ≡ false
        → say_answer One tt h i ≡ said (length (messages One tt h))
        (message_bytes tt.number i (done h i)) }
    ensures twelve_bytes { (plan agent done : ℕ) → length (message_bytes plan agent done) ≡ 12 }
    ensures known { (tt : Timetable) (h : History) (k m i j sender count : ℕ) (r : Answer)
        → slice_get (messages One tt h) m ≡ Some (own_message sender count)
        → known One tt (record { event = Deliver k m; answer = r } ∷ h) i j
        ≡ (if (k == i) && is_heard r && (sender == j) then max (known One tt h i j) count else known
        One tt h i j) }
{}

/// A move of a rotation is never begun: its number is not among those of the begun moves.
pub fn rotations_never_begin()
    ensures { (version : Version) (tt : Timetable) (step : ℕ) (agents : List ℕ) (h : History)
        (place i : ℕ) (track : Track)
        → IsConflictFree tt → IsRotation tt step agents → IsRun version tt h
        → slice_get agents place ≡ Some i → track_of tt i ≡ Some track
        → kept_starts h i ≤ moves_before track step }
{}

/// Along the visits of a cell times rise strictly, and when a visit begins each earlier one has
/// ended.
pub fn visits_in_order()
    ensures one_at_a_time { (tt : Timetable) (i j n m t : ℕ) (c : Cell)
        → IsConflictFree tt → IsVisit tt i n t c → IsVisit tt j m t c → (i ≡ j) × (n ≡ m) }
    ensures ended { (tt : Timetable) (i j n m s t : ℕ) (c : Cell)
        → IsConflictFree tt → IsVisit tt i n s c → IsVisit tt j m t c → s < t
        → HasEnded tt i n j m t c }
{}

/// `last_stand` is the last agent that stood in a cell up to a time, if any did, and `need` what it
/// asks of the agent that enters: moves up
/// to one that is planned no later than the move that waits.
pub fn needs()
    ensures last { (tt : Timetable) (c : Cell) (t : ℕ) → IsLastStand tt c t (last_stand tt c t) }
    ensures need { (tt : Timetable) (i k : ℕ) (track : Track) → k < moves track
        → IsNeed tt i track k (need tt i track k) }
    ensures planned { (tt : Timetable) (i k : ℕ) (track : Track) (asked : Need) → IsConflictFree tt
        → track_of tt i ≡ Some track → k < moves track
        → need tt i track k ≡ Some asked
        → (to : Track) × (last : ℕ) × (track_of tt asked.agent ≡ Some to) × (asked.count ≡ last + 1)
        × (last < moves to) × (step_of to last ≤ step_of track k) }
{}

/// Agents each of whom waits for the next, whatever has been finished: where one comes twice there
/// is a rotation, and so there is where there are more of them than agents in all.
pub fn waiting_in_a_circle()
    ensures twice { (tt : Timetable) (finished : ℕ → ℕ) (agents : List ℕ) (first second i : ℕ)
        → IsConflictFree tt → IsSwapFree tt
        → ((place i j : ℕ) → slice_get agents place ≡ Some i → slice_get agents (place + 1) ≡ Some j
        → WaitsFor tt finished i j)
        → first < second → slice_get agents first ≡ Some i → slice_get agents second ≡ Some i
        → (step : ℕ) × (turning : List ℕ) × IsRotation tt step turning }
    ensures many { (tt : Timetable) (finished : ℕ → ℕ) (agents : List ℕ) → IsConflictFree tt
        → IsSwapFree tt
        → ((place i j : ℕ) → slice_get agents place ≡ Some i → slice_get agents (place + 1) ≡ Some j
        → WaitsFor tt finished i j)
        → ((place i : ℕ) → slice_get agents place ≡ Some i → i < length tt.tracks)
        → length tt.tracks < length agents
        → (step : ℕ) × (turning : List ℕ) × IsRotation tt step turning }
{}

/// `cost` is the least time from which the agent stays for ever, and the agent makes no more moves
/// than that.
pub fn costs()
    ensures cost { (track : Track) → IsCost track (cost track) }
    ensures one { (track : Track) (s t : ℕ) → IsCost track s → IsCost track t → s ≡ t }
    ensures moves { (track : Track) → moves track ≤ cost track }
{}

/// The first k tasks are fitted exactly where there are k agents and at least k tasks, and each
/// agent solves the task of its number.
pub fn tasks()
    ensures { (width height : ℕ) (tracks : List Track) (tasks : List Task) (k : ℕ)
        → FitsFirst width height tracks tasks k
        ↔ ((length tracks ≡ k) × (k ≤ length tasks)
        × ((i : ℕ) → i < k → SolvesAt width height tracks tasks i)) }
{}

/// Events go on where those before them ended, and what is accepted one after another is accepted
/// together.
pub fn events_one_after_another()
    ensures history { (version : Version) (tt : Timetable) (h : History) (events more : List Event)
        → history_after version tt h (events ++ more) ≡ history_after version tt
        (history_after version tt h events) more }
    ensures accepted { (version : Version) (tt : Timetable) (h : History) (events more : List Event)
        → AreAccepted version tt h events
        → AreAccepted version tt (history_after version tt h events) more
        → AreAccepted version tt h (events ++ more) }
    ensures run { (version : Version) (tt : Timetable) (h : History) (events : List Event)
        → IsRun version tt h → IsRun version tt (history_after version tt h events) }
{}

/// What brings agents on. An agent is ready when it was opened anew, or its last write didn't fail
/// and its next one will not, and it has finished the move that it was making. An agent that is
/// ready says how far it has come, learns what it is told, and makes its next move once it knows
/// that the move's need is met. None of these events is refused.
pub fn ready_agents()
    ensures rest { (version : Version) (tt : Timetable) (h : History) (i : ℕ) (track : Track)
        (opened : Bool) → IsRun version tt h → track_of tt i ≡ Some track
        → (opened ≡ false → (is_broken h i ≡ false) × (armed_of h i ≡ None))
        → AreAccepted version tt h (rest_events opened (is_moving h i) i)
        × ComesToRest version tt opened i h
        (history_after version tt h (rest_events opened (is_moving h i) i)) }
    ensures moves { (version : Version) (tt : Timetable) (h : History) (i : ℕ) (track : Track)
        → track_of tt i ≡ Some track → IsReady h i
        → done h i < moves track → IsMet (known version tt h i) (need tt i track (done h i))
        → AreAccepted version tt h (Start i ∷ Finish i ∷ [])
        × MovesOn version tt i h (history_after version tt h (Start i ∷ Finish i ∷ [])) }
    ensures speaks { (version : Version) (tt : Timetable) (h : History) (i : ℕ) (track : Track)
        → track_of tt i ≡ Some track → IsReady h i
        → AreAccepted version tt h (Say i ∷ [])
        × ((message : Message)
        × SpeaksUp version tt i h (history_after version tt h (Say i ∷ [])) message) }
    ensures learns { (version : Version) (tt : Timetable) (h : History) (i m : ℕ) (track : Track)
        (message : Message) → track_of tt i ≡ Some track → IsReady h i
        → slice_get (messages version tt h) m ≡ Some message
        → AreAccepted version tt h (Deliver i m ∷ [])
        × Learns version tt i h (history_after version tt h (Deliver i m ∷ [])) message }
{}

/// Every run over a timetable without vertex conflicts and swaps can be completed, or there is a
/// rotation one of whose moves isn't finished, and never both.
pub fn every_run_ends_or_is_blocked()
    ensures one { (version : Version) (tt : Timetable) (h : History) → IsConflictFree tt
        → IsSwapFree tt → IsRun version tt h
        → IsBlocked tt h ⊎ ((events : List Event) × IsCompletion version tt h events) }
    ensures not_both { (version : Version) (tt : Timetable) (h : History) (events : List Event)
        → IsConflictFree tt → IsRun version tt h
        → IsBlocked tt h → IsCompletion version tt h events → ⊥ }
{}

/// The examples are what the definitions say.
pub fn examples()
    ensures faults { Faults }
    ensures least_faults { LeastFaults }
    ensures timetables { Timetables }
    ensures paths { Paths }
    ensures rotations { Rotations }
    ensures costs { Costs }
    ensures tasks { Tasks }
    ensures visits { Visits }
    ensures last_stands { LastStands }
    ensures dependencies { Dependencies }
    ensures runs { Runs }
    ensures messages { Messages }
    ensures histories { Histories }
    ensures safety { Safety }
    ensures completions { Completions }
{}
