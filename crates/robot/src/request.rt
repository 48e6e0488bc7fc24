//! What an input line asks of an agent.
ghost use Rattle.std.specs.Prelude.{◌≡◌, ◌↔◌, ◌≤◌, ◌*◌, ⊤, IsTrue, MatchOption, length};
ghost use Rattle.robot.specs.Requests.{longest_request, AsksFor, AsksNothing};
ghost use Rattle.robot.specs.Code.Reading.{request_in, FitsIn};

use hex::decode_to_slice;
use text_io::small_numeral;

/// A line that is understood has no more bytes before its LF.
pub(crate) const LONGEST_LINE: usize = 131072;

/// What an input line asks of an agent.
#[derive(Clone, Copy)]
pub(crate) enum Request {
    Start,
    Finish,
    Say,
    /// To say all that it knows.
    Tell,
    Held,
    /// How far ahead its way is free, so many moves at the most.
    May(u32),
    /// To hear a message of so many bytes, which stand at the front of a room.
    Hear(usize),
}

/// Reads what a line without its LF asks for, and a message into the front of the room.
pub(crate) fn read_request(line: &[u8], room: &mut [u8]) -> Option<Request>
    requires not_longer { length line.now ≤ longest_request }
    requires has_room { longest_request ≤ 2 * length room.old }
    ensures asks { MatchOption result (AsksNothing line.now)
        (λ request. AsksFor (request_in room.new request) line.now) }
    ensures fits { MatchOption result ⊤ (λ request. FitsIn room.new request) }
{
    if is_word(line, b"start") {
        return Some(Request::Start);
    }
    if is_word(line, b"finish") {
        return Some(Request::Finish);
    }
    if is_word(line, b"say") {
        return Some(Request::Say);
    }
    if is_word(line, b"tell") {
        return Some(Request::Tell);
    }
    if is_word(line, b"held") {
        return Some(Request::Held);
    }
    if let Some(digits) = line.strip_prefix(b"may ") {
        return Some(Request::May(small_numeral(digits)?));
    }
    let digits = line.strip_prefix(b"hear ")?;
    let count = digits.len() / 2;
    decode_to_slice(digits, &mut room[..count]).ok()?;
    Some(Request::Hear(count))
}

fn is_word(line: &[u8], word: &[u8]) -> bool
    ensures { IsTrue result ↔ (line.now ≡ word.now) }
{
    line == word
}
