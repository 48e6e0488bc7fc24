//! What is promised of the lines that the agents of a fleet read and wrote: laws, which hold of
//! every transcript and need no code.
ghost use Rattle.std.specs.Prelude.{◌≡◌, ℕ, ◌⊎◌, Bool, List, [], ◌∷◌, ◌++◌, length};
ghost use Rattle.std.specs.Prelude.{Option, None, Some, MatchOption, Result, Err};
ghost use Rattle.std.specs.Prelude.{◌≤◌, slice_get};
ghost use Rattle.grid.specs.Map.{Grid};
ghost use Rattle.text_io.specs.declared.counted.Counted.{Counted};
ghost use Rattle.model.specs.Plan.{Plan, IsValid, IsTimetableOf};
ghost use Rattle.model.specs.Timetable.{Track, Timetable, track_of};
ghost use Rattle.model.specs.Messages.{told};
ghost use Rattle.plan_text.specs.Limits.{IsPlan};
ghost use Rattle.agent.specs.Agents.{AgentOn, state_of};
ghost use Rattle.agent.specs.Opening.{IsOpened};
ghost use Rattle.agent.specs.States.{State, finished_moves};
ghost use Rattle.agent.specs.Tape.{whole_records};
ghost use Rattle.agent.specs.Tellings.{Telling, BytesTell};
ghost use Rattle.continuing.specs.Continuing.{IsChain, last_plan};
ghost use Rattle.fleet.specs.Ahead.{IsSafeAhead};
ghost use Rattle.fleet.specs.Deeds.{Deed};
ghost use Rattle.fleet.specs.Fleets.{Log, deeds_of, spoken, IsFleet, IsTellable};
ghost use Rattle.fleet.specs.FleetSafety.{IsFleetSafe};
ghost use Rattle.fleet.specs.OwnPlans.{Doings, log_of, IsFleetBy, SharesMoves, IsOfChain};
ghost use Rattle.robot.specs.Dialogue.{Leads, Talks, dialogue_lines};
ghost use Rattle.robot.specs.declared.talk_fault.TalkFault.{TalkFault};
ghost use Rattle.robot.specs.declared.talk_fault.TalkFault.TheVariants.{WriteFailed, OutOfMemory};
ghost use Rattle.transcripts.specs.Processes.{Process, process_of, IsProcess};
ghost use Rattle.transcripts.specs.Transcripts.{Transcript, WasSaidIn, IsTranscript, states_on};
ghost use Rattle.transcripts.specs.Transcripts.{RunsBy, RunsByChain};

use agent::{MemTape, Tape};
use std::io::{Read, Write};

/// What the processes of a fleet read and wrote tells what the fleet did. There is a fleet whose
/// agents did these deeds and said these messages, and whose tapes have these records. All laws of
/// fleets apply to it.
pub fn transcripts_are_fleets()
    ensures one_plan { (tt : Timetable) (processes : ℕ → List Process) (transcript : Transcript)
        (deeds : ℕ → List Deed) (tapes : ℕ → ℕ)
        → IsTranscript (RunsBy tt) processes transcript deeds tapes
        → (log : Log) × (states : ℕ → State) × IsFleet tt log states
        × ((i : ℕ) → deeds_of log i ≡ deeds i) × ((i : ℕ) → (states i).records ≡ tapes i)
        × ((bytes : List ℕ) → WasSaidIn bytes transcript → (m : ℕ)
        × (slice_get (spoken log) m ≡ Some bytes)) }
    ensures of_plans { (last : Timetable) (processes : ℕ → List Process) (transcript : Transcript)
        (deeds : ℕ → List Deed) (tapes : ℕ → ℕ)
        → IsTranscript (SharesMoves last) processes transcript deeds tapes
        → (doings : Doings) × (states : ℕ → State) × IsFleetBy (SharesMoves last) doings states
        × ((i : ℕ) → deeds_of (log_of doings) i ≡ deeds i)
        × ((i : ℕ) → (states i).records ≡ tapes i)
        × ((bytes : List ℕ) → WasSaidIn bytes transcript → (m : ℕ)
        × (slice_get (spoken (log_of doings)) m ≡ Some bytes)) }
    ensures of_chain { (plan : Plan) (plans : List Plan) (processes : ℕ → List Process)
        (transcript : Transcript) (deeds : ℕ → List Deed) (tapes : ℕ → ℕ)
        → IsTranscript (RunsByChain plan plans) processes transcript deeds tapes
        → (doings : Doings) × (states : ℕ → State) × IsFleetBy (IsOfChain plan plans) doings states
        × ((i : ℕ) → deeds_of (log_of doings) i ≡ deeds i)
        × ((i : ℕ) → (states i).records ≡ tapes i)
        × ((bytes : List ℕ) → WasSaidIn bytes transcript → (m : ℕ)
        × (slice_get (spoken (log_of doings)) m ≡ Some bytes)) }
{
    fleet::laws::tapes_stay_within::<MemTape>();
}

/// So a fleet is safe by what its processes read and wrote, at whichever moments they were killed.
/// All of them ran by one plan that the checker accepts, or the fleet went over to a last one, or
/// each process ran by some plan of a chain.
pub fn transcripts_are_safe()
    ensures one_plan { (map : Grid) (plan : Plan) (tt : Timetable)
        (processes : ℕ → List Process) (transcript : Transcript) (deeds : ℕ → List Deed)
        (tapes : ℕ → ℕ) → IsPlan plan → IsValid map plan → IsTimetableOf plan tt
        → IsTranscript (RunsBy tt) processes transcript deeds tapes
        → (log : Log) × ((i : ℕ) → deeds_of log i ≡ deeds i)
        × IsFleetSafe tt log (states_on tapes) }
    ensures of_plans { (map : Grid) (plan : Plan) (last : Timetable)
        (processes : ℕ → List Process) (transcript : Transcript) (deeds : ℕ → List Deed)
        (tapes : ℕ → ℕ) → IsPlan plan → IsValid map plan → IsTimetableOf plan last
        → IsTranscript (SharesMoves last) processes transcript deeds tapes
        → (log : Log) × ((i : ℕ) → deeds_of log i ≡ deeds i)
        × IsFleetSafe last log (states_on tapes) }
    ensures of_chain { (map : Grid) (plan : Plan) (plans : List Plan) (last : Timetable)
        (processes : ℕ → List Process) (transcript : Transcript) (deeds : ℕ → List Deed)
        (tapes : ℕ → ℕ) → IsChain plan plans → IsPlan (last_plan plan plans)
        → IsValid map (last_plan plan plans) → IsTimetableOf (last_plan plan plans) last
        → IsTranscript (RunsByChain plan plans) processes transcript deeds tapes
        → (log : Log) × ((i : ℕ) → deeds_of log i ≡ deeds i)
        × IsFleetSafe last log (states_on tapes) }
{
    transcripts_are_fleets();
    fleet::laws::every_fleet_is_safe();
    fleet::laws::changing_fleets_are_safe();
    fleet::laws::extending();
}

/// Drives may go ahead of their tapes, as far as an answer to `may` said that their way is free. No
/// two are in one cell, wherever each is between what its tape has as finished and the furthest
/// that was free.
pub fn drives_ahead_are_safe()
    ensures one_plan { (map : Grid) (plan : Plan) (tt : Timetable)
        (processes : ℕ → List Process) (transcript : Transcript) (deeds : ℕ → List Deed)
        (tapes : ℕ → ℕ) → IsPlan plan → IsValid map plan → IsTimetableOf plan tt
        → IsTranscript (RunsBy tt) processes transcript deeds tapes
        → (log : Log) × ((i : ℕ) → deeds_of log i ≡ deeds i)
        × IsSafeAhead tt log (states_on tapes) }
    ensures of_chain { (map : Grid) (plan : Plan) (plans : List Plan) (last : Timetable)
        (processes : ℕ → List Process) (transcript : Transcript) (deeds : ℕ → List Deed)
        (tapes : ℕ → ℕ) → IsChain plan plans → IsPlan (last_plan plan plans)
        → IsValid map (last_plan plan plans) → IsTimetableOf (last_plan plan plans) last
        → IsTranscript (RunsByChain plan plans) processes transcript deeds tapes
        → (log : Log) × ((i : ℕ) → deeds_of log i ≡ deeds i)
        × IsSafeAhead last log (states_on tapes) }
{
    transcripts_are_fleets();
    fleet::laws::ahead_of_tapes();
    fleet::laws::extending();
    continuing::laws::chains_of_plans();
}

/// No line says that an agent has finished more moves than its tape has. Where a line says so, the
/// tape at hand is an older one, or somebody forged the line.
pub fn no_line_is_ahead()
    ensures one_plan { (tt : Timetable) (processes : ℕ → List Process)
        (transcript : Transcript) (deeds : ℕ → List Deed) (tapes : ℕ → ℕ) (i : ℕ) (track : Track)
        (bytes : List ℕ) (t : Telling) → IsTellable tt
        → IsTranscript (RunsBy tt) processes transcript deeds tapes
        → track_of tt i ≡ Some track → WasSaidIn bytes transcript → BytesTell bytes t
        → told t.message i ≤ finished_moves (states_on tapes i) }
    ensures of_plans { (last : Timetable) (processes : ℕ → List Process)
        (transcript : Transcript) (deeds : ℕ → List Deed) (tapes : ℕ → ℕ) (i : ℕ) (track : Track)
        (bytes : List ℕ) (t : Telling) → IsTellable last
        → IsTranscript (SharesMoves last) processes transcript deeds tapes
        → track_of last i ≡ Some track → WasSaidIn bytes transcript → BytesTell bytes t
        → told t.message i ≤ finished_moves (states_on tapes i) }
    ensures of_chain { (map : Grid) (plan : Plan) (plans : List Plan) (last : Timetable)
        (processes : ℕ → List Process) (transcript : Transcript) (deeds : ℕ → List Deed)
        (tapes : ℕ → ℕ) (i : ℕ) (track : Track) (bytes : List ℕ) (t : Telling) → IsTellable last
        → IsChain plan plans → IsValid map (last_plan plan plans)
        → IsTimetableOf (last_plan plan plans) last
        → IsTranscript (RunsByChain plan plans) processes transcript deeds tapes
        → track_of last i ≡ Some track → WasSaidIn bytes transcript → BytesTell bytes t
        → told t.message i ≤ finished_moves (states_on tapes i) }
{
    transcripts_are_fleets();
    fleet::laws::extending();
    fleet::laws::no_tape_is_behind();
}

/// Each dialogue that the contract of `robot::talk` admits, over a tape that was opened, is a
/// process of its agent. Its lines are those that the contract says were read and written. Where
/// the writer failed, the last line may not have been written whole: without it there is a process
/// too. Where memory was refused, there is a process that wrote nothing.
pub fn dialogues_are_processes<R: Read, W: Write, T: Tape>()
    ensures whole { (heeds : Bool) (tt : Timetable) (i : ℕ) (tape : T) (old new : AgentOn T)
        (old_in new_in : Counted R) (old_out new_out : Counted W) (result : Result Unit TalkFault)
        (led : Leads R.remaining W.contents T.state heeds tt old_in new_in old_out new_out old new
        result) → IsOpened T.state T.may_read tt i tape old
        → (deeds : List Deed)
        × IsProcess i (whole_records (T.state tape)) (process_of tt led.lines
        (dialogue_lines led.track (state_of T.state old) led.texts) None) deeds
        (whole_records (T.state new.tape)) }
    ensures wrote_nothing { (heeds : Bool) (tt : Timetable) (i : ℕ) (tape : T) (old new : AgentOn T)
        (old_in new_in : Counted R) (old_out new_out : Counted W)
        → IsOpened T.state T.may_read tt i tape old
        → Talks R.remaining W.contents T.state heeds tt old_in new_in old_out new_out old new
        (Err OutOfMemory)
        → IsProcess i (whole_records (T.state tape)) (process_of tt [] [] None) []
        (whole_records (T.state new.tape)) }
    ensures broken_off { (heeds : Bool) (tt : Timetable) (i : ℕ) (tape : T) (old new : AgentOn T)
        (old_in new_in : Counted R) (old_out new_out : Counted W)
        (led : Leads R.remaining W.contents T.state heeds tt old_in new_in old_out new_out old new
        (Err WriteFailed)) → IsOpened T.state T.may_read tt i tape old
        → (lines : List (List ℕ)) × (begun : Option (List ℕ)) × (deeds : List Deed)
        × MatchOption begun (led.lines ≡ lines) (λ line. led.lines ≡ lines ++ line ∷ [])
        × IsProcess i (whole_records (T.state tape))
        (process_of tt lines led.written.before begun) deeds (whole_records (T.state new.tape)) }
{}

/// A process may be killed at any moment. Between two requests it is a process of the lines that it
/// had answered. At a request it is a process of the lines before, which had begun this one. Then
/// its tape has as many records as before this request, or as behind it.
pub fn processes_may_be_killed()
    ensures { (i old new : ℕ) (process : Process) (deeds : List Deed)
        (lines later answers rest : List (List ℕ)) (first line text : List ℕ)
        → IsProcess i old process deeds new → process.lines ≡ lines ++ line ∷ later
        → process.texts ≡ first ∷ answers ++ text ∷ rest → length lines ≡ length answers
        → (before : ℕ) × (after : ℕ)
        × ((done : List Deed)
        × IsProcess i old (process_of process.by lines (first ∷ answers) None) done before)
        × ((done : List Deed)
        × IsProcess i old (process_of process.by (lines ++ line ∷ [])
        (first ∷ answers ++ text ∷ []) None) done after)
        × ((left : ℕ) → (left ≡ before) ⊎ (left ≡ after) → (done : List Deed)
        × IsProcess i old (process_of process.by lines (first ∷ answers) (Some line)) done left) }
{}

/// What was seen up to any moment is a transcript too, of processes that count as ended then. Each
/// was between two requests or at one, and its tape had as many records as before that request, or
/// as behind it. So the laws of transcripts hold at each moment.
pub fn moments_are_transcripts()
    ensures one_plan { (tt : Timetable) (processes : ℕ → List Process)
        (later earlier : Transcript) (deeds : ℕ → List Deed) (tapes : ℕ → ℕ)
        → IsTranscript (RunsBy tt) processes (later ++ earlier) deeds tapes
        → (before : ℕ → ℕ) × (after : ℕ → ℕ)
        × ((i : ℕ) → (before i ≤ after i) × (after i ≤ tapes i))
        × ((left : ℕ → ℕ) → ((i : ℕ) → (left i ≡ before i) ⊎ (left i ≡ after i))
        → (cut : ℕ → List Process) × (done : ℕ → List Deed)
        × IsTranscript (RunsBy tt) cut earlier done left) }
    ensures of_plans { (last : Timetable) (processes : ℕ → List Process)
        (later earlier : Transcript) (deeds : ℕ → List Deed) (tapes : ℕ → ℕ)
        → IsTranscript (SharesMoves last) processes (later ++ earlier) deeds tapes
        → (before : ℕ → ℕ) × (after : ℕ → ℕ)
        × ((i : ℕ) → (before i ≤ after i) × (after i ≤ tapes i))
        × ((left : ℕ → ℕ) → ((i : ℕ) → (left i ≡ before i) ⊎ (left i ≡ after i))
        → (cut : ℕ → List Process) × (done : ℕ → List Deed)
        × IsTranscript (SharesMoves last) cut earlier done left) }
    ensures of_chain { (plan : Plan) (plans : List Plan) (processes : ℕ → List Process)
        (later earlier : Transcript) (deeds : ℕ → List Deed) (tapes : ℕ → ℕ)
        → IsTranscript (RunsByChain plan plans) processes (later ++ earlier) deeds tapes
        → (before : ℕ → ℕ) × (after : ℕ → ℕ)
        × ((i : ℕ) → (before i ≤ after i) × (after i ≤ tapes i))
        × ((left : ℕ → ℕ) → ((i : ℕ) → (left i ≡ before i) ⊎ (left i ≡ after i))
        → (cut : ℕ → List Process) × (done : ℕ → List Deed)
        × IsTranscript (RunsByChain plan plans) cut earlier done left) }
{}
