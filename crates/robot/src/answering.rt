//! Answering an input line.
ghost use Rattle.std.specs.Prelude.{◌≡◌, ◌≤◌, ◌*◌, Bool, false, true, List};
ghost use Rattle.std.specs.Prelude.{ℕ, Some, length, is_some, IfSome, MatchOption};
ghost use Rattle.model.specs.Timetable.{Track, Timetable, track_of};
ghost use Rattle.depgraph.specs.AgentParts.{IsPartOf, IsOfGraph};
ghost use Rattle.agent.specs.Agents.{state_of};
ghost use Rattle.robot.specs.Requests.{longest_request, say, tell, hear};
ghost use Rattle.robot.specs.Stale.{IsHeeded};
ghost use Rattle.robot.specs.Turns.{state_line};
ghost use Rattle.robot.specs.Code.Answering.{answer_line, says_store_failed, CountsFailures};
ghost use Rattle.robot.specs.Code.Answering.{DoesRequest, IsSameAgent, IsStaleWord};
ghost use Rattle.robot.specs.Code.Answering.{TakesTurn};
ghost use Rattle.robot.specs.Code.Reading.{request_in, FitsIn, IsLineKept};

use crate::line_answer::LineAnswer;
use crate::request::{Request, read_request};
use crate::stale::{StaleWord, older_tape};
use agent::replies::{
    reply_to_delivery, reply_to_finish, reply_to_restart, reply_to_start, why_of,
};
use agent::{Agent, Tape, TellFault};
use depgraph::Part;
use model::{Reply, Why};

/// Answers a line that was kept in a room, so many bytes without an LF; one that was too long is
/// not understood.
pub(crate) fn answer_kept<T: Tape>(
    agent: &mut Agent<'_, T>,
    heeded: &Option<Part<'_>>,
    line: &[u8],
    kept: Option<usize>,
    room: &mut [u8],
) -> LineAnswer
    requires long { length line.now ≡ longest_request }
    requires has_room { longest_request ≤ 2 * length room.old }
    requires within { IfSome kept (λ count. count ≤ length line.now) }
    requires own { IfSome heeded.now (λ p. p ≡ agent.old.part) }
    ensures same { IsSameAgent agent.old agent.new }
    ensures counts { CountsFailures (says_store_failed result) (T.state agent.old.tape).failures
        (T.state agent.new.tape).failures }
    ensures turn { (tt : Timetable) → IsPartOf tt agent.old.part → (track : Track) (text : List ℕ)
        → track_of tt agent.old.part.agent ≡ Some track
        → IsLineKept text line.now kept
        → TakesTurn (is_some heeded.now) tt agent.old.part.agent track text
        (state_of T.state agent.old) (state_of T.state agent.new) result }
{
    match kept {
        Some(count) => answer_text(agent, heeded, &line[..count], room),
        None => LineAnswer::BadLine,
    }
}

/// Answers a line without its LF.
fn answer_text<T: Tape>(
    agent: &mut Agent<'_, T>,
    heeded: &Option<Part<'_>>,
    line: &[u8],
    room: &mut [u8],
) -> LineAnswer
    requires not_longer { length line.now ≤ longest_request }
    requires has_room { longest_request ≤ 2 * length room.old }
    requires own { IfSome heeded.now (λ p. p ≡ agent.old.part) }
    ensures same { IsSameAgent agent.old agent.new }
    ensures counts { CountsFailures (says_store_failed result) (T.state agent.old.tape).failures
        (T.state agent.new.tape).failures }
    ensures turn { (tt : Timetable) → IsPartOf tt agent.old.part → (track : Track)
        → track_of tt agent.old.part.agent ≡ Some track
        → TakesTurn (is_some heeded.now) tt agent.old.part.agent track line.now
        (state_of T.state agent.old) (state_of T.state agent.new) result }
{
    match read_request(line, room) {
        Some(request) => answer_request(agent, heeded, request, room),
        None => LineAnswer::BadLine,
    }
}

/// Does what is asked for; the message that is to be heard stands at the front of the room.
fn answer_request<T: Tape>(
    agent: &mut Agent<'_, T>,
    heeded: &Option<Part<'_>>,
    request: Request,
    room: &[u8],
) -> LineAnswer
    requires fits { FitsIn room.now request }
    requires own { IfSome heeded.now (λ p. p ≡ agent.old.part) }
    ensures same { IsSameAgent agent.old agent.new }
    ensures counts { CountsFailures (says_store_failed result) (T.state agent.old.tape).failures
        (T.state agent.new.tape).failures }
    ensures takes { (tt : Timetable) → IsPartOf tt agent.old.part → (track : Track)
        → track_of tt agent.old.part.agent ≡ Some track
        → DoesRequest (is_some heeded.now) tt agent.old.part.agent track
        (request_in room.now request) (state_of T.state agent.old)
        (state_of T.state agent.new) result }
{
    match request {
        Request::Start => LineAnswer::Reply(reply_to_start(agent.start())),
        Request::Finish => LineAnswer::Reply(reply_to_finish(agent.finish())),
        Request::Say => answer_say(agent),
        Request::Tell => answer_tell(agent),
        Request::Held => state_answer(agent),
        Request::May(most) => LineAnswer::Free(agent.ahead(most)),
        Request::Hear(count) => answer_hear(agent, heeded, &room[..count]),
    }
}

fn answer_say<T: Tape>(agent: &Agent<'_, T>) -> LineAnswer
    ensures never { says_store_failed result ≡ false }
    ensures takes { (heeds : Bool) (tt : Timetable) → IsPartOf tt agent.now.part → (track : Track)
        → DoesRequest heeds tt agent.now.part.agent track say (state_of T.state agent.now)
        (state_of T.state agent.now) result }
{
    match agent.say() {
        Ok(message) => LineAnswer::Said(message),
        Err(refusal) => LineAnswer::Reply(Reply::Refused(why_of(refusal))),
    }
}

fn answer_tell<T: Tape>(agent: &Agent<'_, T>) -> LineAnswer
    ensures never { says_store_failed result ≡ false }
    ensures takes { (heeds : Bool) (tt : Timetable) → IsPartOf tt agent.now.part → (track : Track)
        → DoesRequest heeds tt agent.now.part.agent track tell (state_of T.state agent.now)
        (state_of T.state agent.now) result }
{
    match agent.tell() {
        Ok(message) => LineAnswer::Told(message),
        Err(TellFault::Broken) => LineAnswer::Reply(Reply::Refused(Why::Broken)),
        Err(TellFault::OutOfMemory) => LineAnswer::OutOfMemory,
    }
}

fn answer_hear<T: Tape>(
    agent: &mut Agent<'_, T>,
    heeded: &Option<Part<'_>>,
    message: &[u8],
) -> LineAnswer
    requires { IfSome heeded.now (λ p. p ≡ agent.old.part) }
    ensures same { IsSameAgent agent.old agent.new }
    ensures counts { CountsFailures (says_store_failed result) (T.state agent.old.tape).failures
        (T.state agent.new.tape).failures }
    ensures takes { (tt : Timetable) → IsPartOf tt agent.old.part → (track : Track)
        → DoesRequest (is_some heeded.now) tt agent.old.part.agent track (hear message.now)
        (state_of T.state agent.old) (state_of T.state agent.new) result }
{
    if let Some(word) = heeded_word(agent, heeded, message) {
        return LineAnswer::StaleTape(word);
    }
    match reply_to_delivery(agent.hear(message)) {
        Ok(reply) => LineAnswer::Reply(reply),
        Err(_) => LineAnswer::OutOfMemory,
    }
}

/// What a message says of the agent's own moves, where it shows its tape to be an older one, and
/// that is heeded.
fn heeded_word<T: Tape>(
    agent: &Agent<'_, T>,
    heeded: &Option<Part<'_>>,
    message: &[u8],
) -> Option<StaleWord>
    requires { IfSome heeded.now (λ p. p ≡ agent.now.part) }
    ensures heeded { IfSome result (λ _. is_some heeded.now ≡ true) }
    ensures word { (tt : Timetable) → IsPartOf tt agent.now.part → MatchOption result
        (IsHeeded (is_some heeded.now) tt agent.now.part.agent
        (state_of T.state agent.now) message.now)
        (IsStaleWord tt agent.now.part.agent (state_of T.state agent.now) message.now) }
{
    match heeded {
        Some(part) => older_tape(agent, part, message),
        None => None,
    }
}

/// Where the agent is, and how many moves it has finished.
pub(crate) fn state_answer<T: Tape>(agent: &Agent<'_, T>) -> LineAnswer
    ensures never { says_store_failed result ≡ false }
    ensures line { (tt : Timetable) → IsPartOf tt agent.now.part → (track : Track)
        × (track_of tt agent.now.part.agent ≡ Some track)
        × (answer_line result ≡ state_line track (state_of T.state agent.now)) }
    ensures within { IsOfGraph agent.now.part }
{
    LineAnswer::Reply(reply_to_restart(agent.held(), agent.done()))
}
