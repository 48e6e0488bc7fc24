//! Writing the lines by which a robot answers an event. Nothing is flushed.
ghost use Rattle.std.specs.Prelude.{◌≡◌, [], ◌∷◌, ◌++◌, OnOk, OnErr};
ghost use Rattle.text_io.specs.Sink.{Puts, Breaks};
ghost use Rattle.text_io.specs.Text.{line_feed, spaced_numbers};
ghost use Rattle.carrier_text.specs.AnswerLines.{held_line, go_line, ask_line};
ghost use Rattle.carrier_text.specs.AnswerLines.{send_line, waits_line, arrived_line, done_line};
ghost use Rattle.carrier_text.specs.AnswerLines.{dropped_line, alarm_line, end_line};

use agent::replies::reply_to_restart;
use agent::{HearFault, Held};
use event_text::{put_hexadecimal, put_reply};
use grid::Cell;
use std::io::Write;
use text_io::{Sink, WriteFault};

/// What a person has to know.
#[derive(Clone, Copy, Debug, PartialEq, Eq)]
pub enum Alarm {
    /// The carrier wrote a line that says nothing.
    BadLine,
    /// The drive's last report fits no cell in which the drive may be.
    Misplaced,
    /// The sender knows that the robot has finished so many moves, and the robot's tape has fewer.
    StaleTape { sender: u16, number: u32 },
    /// The robot can't store a record.
    StoreFailed,
    /// Memory is wanting for what the robot heard, or for what it is to tell.
    OutOfMemory,
}

/// Puts where the robot is by its tape, and how many moves it has finished.
pub fn put_state<W: Write>(sink: &mut Sink<'_, W>, held: Held, done: u32) -> Result<(), WriteFault>
    ensures ok { OnOk result
        (Puts W.contents sink.old sink.new (held_line held done ++ line_feed ∷ [])) }
    ensures err { OnErr result
        (Breaks W.contents sink.old sink.new (held_line held done ++ line_feed ∷ [])) }
{
    put_reply(sink, &reply_to_restart(held, done))
}

/// Puts the cells along which the drive is to go on, in this order.
pub fn put_go<W: Write>(sink: &mut Sink<'_, W>, cells: &[Cell]) -> Result<(), WriteFault>
    ensures ok { OnOk result
        (Puts W.contents sink.old sink.new (go_line cells.now ++ line_feed ∷ [])) }
    ensures err { OnErr result
        (Breaks W.contents sink.old sink.new (go_line cells.now ++ line_feed ∷ [])) }
{
    sink.put(b"go")?;
    for cell in cells {
        sink.put_numbers(b"", b' ', &[u64::from(cell.x), u64::from(cell.y)])?;
    }
    sink.put(b"\n")
}

/// Puts the request that the drive reports where it is.
pub fn put_ask<W: Write>(sink: &mut Sink<'_, W>) -> Result<(), WriteFault>
    ensures ok { OnOk result
        (Puts W.contents sink.old sink.new (ask_line ++ line_feed ∷ [])) }
    ensures err { OnErr result
        (Breaks W.contents sink.old sink.new (ask_line ++ line_feed ∷ [])) }
{
    sink.put(b"ask\n")
}

/// Puts the bytes that the network is to send to all others.
pub fn put_send<W: Write>(sink: &mut Sink<'_, W>, bytes: &[u8]) -> Result<(), WriteFault>
    ensures ok { OnOk result
        (Puts W.contents sink.old sink.new (send_line bytes.now ++ line_feed ∷ [])) }
    ensures err { OnErr result
        (Breaks W.contents sink.old sink.new (send_line bytes.now ++ line_feed ∷ [])) }
{
    sink.put(b"send ")?;
    put_hexadecimal(sink, bytes)?;
    sink.put(b"\n")
}

/// Puts the agent for which the robot waits, and how many moves that agent has to finish.
pub fn put_waits<W: Write>(sink: &mut Sink<'_, W>, agent: u16, count: u32) -> Result<(), WriteFault>
    ensures ok { OnOk result
        (Puts W.contents sink.old sink.new (waits_line agent count ++ line_feed ∷ [])) }
    ensures err { OnErr result
        (Breaks W.contents sink.old sink.new (waits_line agent count ++ line_feed ∷ [])) }
{
    put_numbers(sink, b"waits", &[u64::from(agent), u64::from(count)])
}

/// Puts the cell to which the robot has come.
pub fn put_arrived<W: Write>(sink: &mut Sink<'_, W>, cell: Cell) -> Result<(), WriteFault>
    ensures ok { OnOk result
        (Puts W.contents sink.old sink.new (arrived_line cell ++ line_feed ∷ [])) }
    ensures err { OnErr result
        (Breaks W.contents sink.old sink.new (arrived_line cell ++ line_feed ∷ [])) }
{
    put_numbers(sink, b"arrived", &[u64::from(cell.x), u64::from(cell.y)])
}

/// Puts that the robot is where its plan ends.
pub fn put_done<W: Write>(sink: &mut Sink<'_, W>) -> Result<(), WriteFault>
    ensures ok { OnOk result
        (Puts W.contents sink.old sink.new (done_line ++ line_feed ∷ [])) }
    ensures err { OnErr result
        (Breaks W.contents sink.old sink.new (done_line ++ line_feed ∷ [])) }
{
    sink.put(b"done\n")
}

/// Puts why a message was dropped.
pub fn put_dropped<W: Write>(sink: &mut Sink<'_, W>, fault: HearFault) -> Result<(), WriteFault>
    ensures ok { OnOk result
        (Puts W.contents sink.old sink.new (dropped_line fault ++ line_feed ∷ [])) }
    ensures err { OnErr result
        (Breaks W.contents sink.old sink.new (dropped_line fault ++ line_feed ∷ [])) }
{
    let words = fault.words();
    sink.put(b"dropped ")?;
    put_numbers(sink, words.name().as_bytes(), words.numbers())
}

/// Puts what a person has to know.
pub fn put_alarm<W: Write>(sink: &mut Sink<'_, W>, alarm: Alarm) -> Result<(), WriteFault>
    ensures ok { OnOk result
        (Puts W.contents sink.old sink.new (alarm_line alarm ++ line_feed ∷ [])) }
    ensures err { OnErr result
        (Breaks W.contents sink.old sink.new (alarm_line alarm ++ line_feed ∷ [])) }
{
    match alarm {
        Alarm::BadLine => sink.put(b"alarm BadLine\n"),
        Alarm::Misplaced => sink.put(b"alarm Misplaced\n"),
        Alarm::StaleTape { sender, number } => {
            let numbers = [u64::from(sender), u64::from(number)];
            put_numbers(sink, b"alarm StaleTape", &numbers)
        }
        Alarm::StoreFailed => sink.put(b"alarm StoreFailed\n"),
        Alarm::OutOfMemory => sink.put(b"alarm OutOfMemory\n"),
    }
}

/// Puts the line that ends an answer.
pub fn put_end<W: Write>(sink: &mut Sink<'_, W>) -> Result<(), WriteFault>
    ensures ok { OnOk result
        (Puts W.contents sink.old sink.new (end_line ++ line_feed ∷ [])) }
    ensures err { OnErr result
        (Breaks W.contents sink.old sink.new (end_line ++ line_feed ∷ [])) }
{
    sink.put(b".\n")
}

/// Puts a word, each number with a space before it, and an LF.
fn put_numbers<W: Write>(
    sink: &mut Sink<'_, W>,
    word: &[u8],
    numbers: &[u64],
) -> Result<(), WriteFault>
    ensures ok { OnOk result
        (Puts W.contents sink.old sink.new
        (word.now ++ spaced_numbers numbers.now ++ line_feed ∷ [])) }
    ensures err { OnErr result
        (Breaks W.contents sink.old sink.new
        (word.now ++ spaced_numbers numbers.now ++ line_feed ∷ [])) }
{
    sink.put_numbers(word, b' ', numbers)?;
    sink.put(b"\n")
}
