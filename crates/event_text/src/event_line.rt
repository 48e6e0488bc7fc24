//! The line of an event.
ghost use Rattle.std.specs.Prelude.{◌≡◌, ◌^◌, ◌++◌, Some, None, IfSome, MatchOption};
ghost use Rattle.event_text.specs.Code.EventLines.{cut_at_space, event_of, one_number};
ghost use Rattle.event_text.specs.Code.EventLines.{two_numbers, IsBehindEvent, BeginsWithEvent};
ghost use Rattle.text_io.specs.Numerals.{numeral_below};

use memchr::memchr;
use model::Event;
use text_io::{number_before, numeral, small_number_before, small_numeral};

/// The event of a line without its LF.
pub(crate) fn read_event(line: &[u8]) -> Option<Event>
    ensures { result ≡ event_of line.now }
{
    if let Some(rest) = line.strip_prefix(b"start ") {
        return Some(Event::Start(small_numeral(rest)?));
    }
    if let Some(rest) = line.strip_prefix(b"finish ") {
        return Some(Event::Finish(small_numeral(rest)?));
    }
    if let Some(rest) = line.strip_prefix(b"say ") {
        return Some(Event::Say(small_numeral(rest)?));
    }
    if let Some(rest) = line.strip_prefix(b"deliver ") {
        let (agent, message) = cut(rest)?;
        return Some(Event::Deliver(small_numeral(agent)?, numeral(message)?));
    }
    if let Some(rest) = line.strip_prefix(b"restart ") {
        return Some(Event::Restart(small_numeral(rest)?));
    }
    let (agent, count) = cut(line.strip_prefix(b"tear ")?)?;
    Some(Event::Tear(small_numeral(agent)?, small_numeral(count)?))
}

/// The event whose line the bytes begin with, and how many bytes that line has with its LF. It is
/// told without looking for the LF first;
/// `None` says nothing of the bytes, of which there may be too few.
#[inline(always)]
pub(crate) fn leading_event(bytes: &[u8]) -> Option<(Event, usize)>
    ensures { IfSome result (λ found. BeginsWithEvent found.0 found.1 bytes.now) }
{
    let (event, rest) = split_event(bytes)?;
    Some((event, bytes.len() - rest.len()))
}

/// The event whose line the bytes begin with, and what stands behind its LF.
#[inline(always)]
fn split_event(bytes: &[u8]) -> Option<(Event, &[u8])>
    ensures { IfSome result (λ found. IsBehindEvent found.0 bytes.now found.1.now) }
{
    if let Some(rest) = behind(b"start ", bytes) {
        let (agent, rest) = small_number_before(b'\n', rest)?;
        return Some((Event::Start(agent), rest));
    }
    if let Some(rest) = behind(b"finish ", bytes) {
        let (agent, rest) = small_number_before(b'\n', rest)?;
        return Some((Event::Finish(agent), rest));
    }
    if let Some(rest) = behind(b"say ", bytes) {
        let (agent, rest) = small_number_before(b'\n', rest)?;
        return Some((Event::Say(agent), rest));
    }
    if let Some(rest) = behind(b"deliver ", bytes) {
        let (agent, rest) = small_number_before(b' ', rest)?;
        let (message, rest) = number_before(b'\n', rest)?;
        return Some((Event::Deliver(agent, message), rest));
    }
    if let Some(rest) = behind(b"restart ", bytes) {
        let (agent, rest) = small_number_before(b'\n', rest)?;
        return Some((Event::Restart(agent), rest));
    }
    let rest = behind(b"tear ", bytes)?;
    let (agent, rest) = small_number_before(b' ', rest)?;
    let (count, rest) = small_number_before(b'\n', rest)?;
    Some((Event::Tear(agent, count), rest))
}

/// What stands behind a word at the front. Where the word is known, so are its bytes, and they are
/// compared one by one without a call.
#[inline(always)]
fn behind<'a>(word: &[u8], bytes: &'a [u8]) -> Option<&'a [u8]>
    ensures { IfSome result (λ rest. bytes.now ≡ word.now ++ rest.now) }
{
    if bytes.len() < word.len() {
        return None;
    }
    for at in 0..word.len() {
        if bytes[at] != word[at] {
            return None;
        }
    }
    Some(&bytes[word.len()..])
}

/// What stands before the first space, and what behind it.
fn cut(bytes: &[u8]) -> Option<(&[u8], &[u8])>
    ensures { MatchOption result (cut_at_space bytes.now ≡ None)
        (λ p. cut_at_space bytes.now ≡ Some (p.0.now, p.1.now)) }
{
    let place = memchr(b' ', bytes)?;
    Some((&bytes[..place], &bytes[place + 1..]))
}
