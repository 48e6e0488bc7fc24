//! Writing events as text.
ghost use Rattle.std.specs.Prelude.{[], ◌∷◌, ◌++◌, OnOk, OnErr};
ghost use Rattle.text_io.specs.Text.{line_feed};
ghost use Rattle.text_io.specs.Sink.{Puts, Breaks};
ghost use Rattle.event_text.specs.EventLine.{event_line};

use crate::reply_writer::put_numbers;
use model::Event;
use std::io::Write;
use text_io::{Sink, WriteFault};

/// Puts an event's line and its LF.
pub fn put_event<W: Write>(sink: &mut Sink<'_, W>, event: &Event) -> Result<(), WriteFault>
    ensures ok { OnOk result
        (Puts W.contents sink.old sink.new (event_line event.now ++ line_feed ∷ [])) }
    ensures err { OnErr result
        (Breaks W.contents sink.old sink.new (event_line event.now ++ line_feed ∷ [])) }
{
    put_line(sink, *event)?;
    sink.put_byte(b'\n')
}

fn put_line<W: Write>(sink: &mut Sink<'_, W>, event: Event) -> Result<(), WriteFault>
    ensures ok { OnOk result (Puts W.contents sink.old sink.new (event_line event)) }
    ensures err { OnErr result (Breaks W.contents sink.old sink.new (event_line event)) }
{
    match event {
        Event::Start(i) => put_numbers(sink, b"start", &[u64::from(i)]),
        Event::Finish(i) => put_numbers(sink, b"finish", &[u64::from(i)]),
        Event::Say(i) => put_numbers(sink, b"say", &[u64::from(i)]),
        Event::Deliver(i, m) => put_numbers(sink, b"deliver", &[u64::from(i), m]),
        Event::Restart(i) => put_numbers(sink, b"restart", &[u64::from(i)]),
        Event::Tear(i, n) => put_numbers(sink, b"tear", &[u64::from(i), u64::from(n)]),
    }
}
