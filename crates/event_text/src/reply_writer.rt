//! Writing replies as text.
ghost use Rattle.std.specs.Prelude.{◌≡◌, ◌<◌, ◌≤◌, [], ◌∷◌, ◌++◌};
ghost use Rattle.std.specs.Prelude.{length, map, slice_index, OnOk, OnErr, is_ok};
ghost use Rattle.hex.specs.Hex.{encode_lower, lower_digits};
ghost use Rattle.text_io.specs.Counted.{counted_inner, failures_of};
ghost use Rattle.text_io.specs.Text.{line_feed, spaced_numbers};
ghost use Rattle.text_io.specs.Sink.{held_back, Puts, Breaks};
ghost use Rattle.text_io.specs.Writing.{WritesText};
ghost use Rattle.model.specs.History.{said, at, between, refused};
ghost use Rattle.model.specs.Replies.{answer_of};
ghost use Rattle.event_text.specs.ReplyText.{refusal_name, standing_line, reply_line, replies_text};

use grid::Cell;
use hex::encode_to_slice;
use model::{Reply, Why};
use std::io::Write;
use text_io::{Counted, Sink, WriteFault};

/// So many bytes of a message are put at a time: a message of version 1 has no more.
const PIECE: usize = 12;

/// Writes the line of each reply. The writer is not flushed.
pub fn write_replies<W: Write>(replies: &[Reply], writer: &mut Counted<W>) -> Result<(), WriteFault>
    ensures { WritesText (is_ok result) (W.contents (counted_inner writer.old))
        (W.contents (counted_inner writer.new)) (failures_of writer.old) (failures_of writer.new)
        (replies_text (map answer_of replies.now)) }
{
    let mut sink = Sink::new(writer);
    put_replies(&mut sink, replies)
}

/// Puts all lines, and hands them on.
fn put_replies<W: Write>(sink: &mut Sink<'_, W>, replies: &[Reply]) -> Result<(), WriteFault>
    ensures ok { OnOk result
        (Puts W.contents sink.old sink.new (replies_text (map answer_of replies.now))) }
    ensures none_held { OnOk result (held_back sink.new ≡ []) }
    ensures err { OnErr result
        (Breaks W.contents sink.old sink.new (replies_text (map answer_of replies.now))) }
{
    for reply in replies {
        put_reply(sink, reply)?;
    }
    sink.hand_on()
}

/// Puts a reply's line and its LF.
#[inline(always)]
pub fn put_reply<W: Write>(sink: &mut Sink<'_, W>, reply: &Reply) -> Result<(), WriteFault>
    ensures ok { OnOk result
        (Puts W.contents sink.old sink.new (reply_line (answer_of reply.now) ++ line_feed ∷ [])) }
    ensures err { OnErr result
        (Breaks W.contents sink.old sink.new (reply_line (answer_of reply.now) ++ line_feed ∷ [])) }
{
    put_line(sink, reply)?;
    sink.put_byte(b'\n')
}

#[inline(always)]
fn put_line<W: Write>(sink: &mut Sink<'_, W>, reply: &Reply) -> Result<(), WriteFault>
    ensures ok { OnOk result
        (Puts W.contents sink.old sink.new (reply_line (answer_of reply.now))) }
    ensures err { OnErr result
        (Breaks W.contents sink.old sink.new (reply_line (answer_of reply.now))) }
{
    match reply {
        Reply::Moving(c) => put_two(sink, b"moving", u64::from(c.x), u64::from(c.y)),
        Reply::Arrived(c) => put_two(sink, b"arrived", u64::from(c.x), u64::from(c.y)),
        Reply::Said(m, bytes) => put_said(sink, *m, bytes),
        Reply::Heard(j, n) => put_two(sink, b"heard", u64::from(*j), u64::from(*n)),
        Reply::At(c, k) => put_at(sink, *c, *k),
        Reply::Between(u, v, k) => put_between(sink, *u, *v, *k),
        Reply::Armed => sink.put(b"armed"),
        Reply::Refused(why) => put_refusal(sink, *why),
    }
}

/// Puts a word and two numbers. Their list has its place in memory here, and not in a function
/// where another reply may have none.
#[inline(always)]
fn put_two<W: Write>(
    sink: &mut Sink<'_, W>,
    word: &[u8],
    first: u64,
    second: u64,
) -> Result<(), WriteFault>
    ensures ok { OnOk result
        (Puts W.contents sink.old sink.new (word.now ++ spaced_numbers (first ∷ second ∷ []))) }
    ensures err { OnErr result
        (Breaks W.contents sink.old sink.new (word.now ++ spaced_numbers (first ∷ second ∷ []))) }
{
    put_numbers(sink, word, &[first, second])
}

/// Puts a message's number and its bytes.
fn put_said<W: Write>(sink: &mut Sink<'_, W>, number: u64, bytes: &[u8]) -> Result<(), WriteFault>
    ensures ok { OnOk result
        (Puts W.contents sink.old sink.new (reply_line (said number bytes.now))) }
    ensures err { OnErr result
        (Breaks W.contents sink.old sink.new (reply_line (said number bytes.now))) }
{
    put_numbers(sink, b"said", &[number])?;
    sink.put_byte(b' ')?;
    put_hexadecimal(sink, bytes)
}

/// Puts where an agent stands, and how many moves are finished.
fn put_at<W: Write>(sink: &mut Sink<'_, W>, c: Cell, finished: u32) -> Result<(), WriteFault>
    ensures ok { OnOk result (Puts W.contents sink.old sink.new (reply_line (at c finished))) }
    ensures err { OnErr result (Breaks W.contents sink.old sink.new (reply_line (at c finished))) }
{
    put_standing(sink, b"at", &[u64::from(c.x), u64::from(c.y)], finished)
}

/// Puts between which cells an agent is, and how many moves are finished.
fn put_between<W: Write>(
    sink: &mut Sink<'_, W>,
    u: Cell,
    v: Cell,
    finished: u32,
) -> Result<(), WriteFault>
    ensures ok { OnOk result
        (Puts W.contents sink.old sink.new (reply_line (between u v finished))) }
    ensures err { OnErr result
        (Breaks W.contents sink.old sink.new (reply_line (between u v finished))) }
{
    let places = [
        u64::from(u.x),
        u64::from(u.y),
        u64::from(v.x),
        u64::from(v.y),
    ];
    put_standing(sink, b"between", &places, finished)
}

/// Puts a word, the columns and rows of cells, and how many moves are finished.
fn put_standing<W: Write>(
    sink: &mut Sink<'_, W>,
    word: &[u8],
    places: &[u64],
    finished: u32,
) -> Result<(), WriteFault>
    ensures ok { OnOk result
        (Puts W.contents sink.old sink.new (standing_line word.now places.now finished)) }
    ensures err { OnErr result
        (Breaks W.contents sink.old sink.new (standing_line word.now places.now finished)) }
{
    put_numbers(sink, word, places)?;
    put_numbers(sink, b" done", &[u64::from(finished)])
}

fn put_refusal<W: Write>(sink: &mut Sink<'_, W>, why: Why) -> Result<(), WriteFault>
    ensures ok { OnOk result (Puts W.contents sink.old sink.new (reply_line (refused why))) }
    ensures err { OnErr result (Breaks W.contents sink.old sink.new (reply_line (refused why))) }
{
    sink.put(b"refused ")?;
    let name = refusal_name(why).as_bytes();
    match why {
        Why::Waits(j, count) => put_numbers(sink, name, &[u64::from(j), u64::from(count)]),
        Why::BadEntry(entry) => put_numbers(sink, name, &[u64::from(entry)]),
        _ => sink.put(name),
    }
}

fn refusal_name(why: Why) -> &'static str
    ensures { result.now ≡ refusal_name why }
{
    match why {
        Why::NoSuchAgent => "NoSuchAgent",
        Why::NoSuchMessage => "NoSuchMessage",
        Why::BadTear => "BadTear",
        Why::Broken => "Broken",
        Why::AlreadyMoving => "AlreadyMoving",
        Why::AtEnd => "AtEnd",
        Why::Waits(_, _) => "Waits",
        Why::NotMoving => "NotMoving",
        Why::StoreFailed => "StoreFailed",
        Why::BadLength => "BadLength",
        Why::BadMagic => "BadMagic",
        Why::BadVersion => "BadVersion",
        Why::BadEntry(_) => "BadEntry",
        Why::WrongPlan => "WrongPlan",
        Why::TooMany => "TooMany",
    }
}

/// Puts a word, and each number with a space before it.
#[inline(always)]
pub(crate) fn put_numbers<W: Write>(
    sink: &mut Sink<'_, W>,
    word: &[u8],
    numbers: &[u64],
) -> Result<(), WriteFault>
    ensures ok { OnOk result
        (Puts W.contents sink.old sink.new (word.now ++ spaced_numbers numbers.now)) }
    ensures err { OnErr result
        (Breaks W.contents sink.old sink.new (word.now ++ spaced_numbers numbers.now)) }
{
    sink.put_numbers(word, b' ', numbers)
}

/// Puts two digits for each byte.
pub fn put_hexadecimal<W: Write>(sink: &mut Sink<'_, W>, bytes: &[u8]) -> Result<(), WriteFault>
    ensures ok { OnOk result (Puts W.contents sink.old sink.new (encode_lower bytes.now)) }
    ensures err { OnErr result (Breaks W.contents sink.old sink.new (encode_lower bytes.now)) }
{
    let mut rest = bytes;
    while !rest.is_empty() {
        let count = rest.len().min(PIECE);
        put_digits(sink, &rest[..count])?;
        rest = &rest[count..];
    }
    Ok(())
}

/// Puts the digits of a few bytes.
fn put_digits<W: Write>(sink: &mut Sink<'_, W>, bytes: &[u8]) -> Result<(), WriteFault>
    requires { length bytes.now ≤ PIECE }
    ensures ok { OnOk result (Puts W.contents sink.old sink.new (encode_lower bytes.now)) }
    ensures err { OnErr result (Breaks W.contents sink.old sink.new (encode_lower bytes.now)) }
{
    if bytes.len() == PIECE {
        return sink.put(&digits_of(bytes));
    }
    let mut digits = [0; 2 * PIECE];
    let digits = &mut digits[..2 * bytes.len()];
    // There is room for just so many digits, so nothing can be refused.
    let _ = encode_to_slice(bytes, digits);
    sink.put(digits)
}

/// The digits of as many bytes as a message of version 1 has. They are computed and not looked up,
/// so that all are made side by side and none is put into memory by itself.
#[inline(always)]
fn digits_of(bytes: &[u8]) -> [u8; 2 * PIECE]
    requires { length bytes.now ≡ PIECE }
    ensures { result ≡ encode_lower bytes.now }
{
    let mut digits = [0; 2 * PIECE];
    'bytes: for i in 0..PIECE {
        digits[2 * i] = digit(bytes[i] / 16);
        digits[2 * i + 1] = digit(bytes[i] % 16);
    }
    digits
}

/// The digit of a number below 16.
#[inline(always)]
fn digit(number: u8) -> u8
    requires { number < 16 }
    ensures { result ≡ slice_index lower_digits number }
{
    if number < 10 {
        b'0' + number
    } else {
        b'a' - 10 + number
    }
}
