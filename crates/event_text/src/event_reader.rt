//! Reading a text of events.
ghost use Rattle.std.specs.Prelude.{◌≡◌, ◌≤◌, ℕ, Option, Some, None, Ok, List, [], take, min, IfOk};
ghost use Rattle.text_io.specs.declared.counted.Counted.{Counted};
ghost use Rattle.text_io.specs.Counted.{counted_inner, failures_of};
ghost use Rattle.text_io.specs.declared.source.Source.{Source};
ghost use Rattle.text_io.specs.Source.{source_reader, most_left};
ghost use Rattle.text_io.specs.Lines.{HasTaken};
ghost use Rattle.text_io.specs.Reading.{ReadsText};
ghost use Rattle.model.specs.declared.event.Event.{Event};
ghost use Rattle.model.specs.declared.version.Version.{Version};
ghost use Rattle.model.specs.declared.version.Version.TheVariants.{One};
ghost use Rattle.event_text.specs.declared.header.Headers.{Headers};
ghost use Rattle.event_text.specs.declared.header.Headers.TheVariants.{VersionOne, Either};
ghost use Rattle.event_text.specs.EventText.{EventText, RunText};
ghost use Rattle.event_text.specs.EventFault.{longest_event_line, EventFaultAt, read_items};
ghost use Rattle.event_text.specs.EventFault.{read_run, event_outcome};
ghost use Rattle.event_text.specs.Taking.{IsAtStart, HasReadEvents, VersionTaken};
ghost use Rattle.event_text.specs.Taking.{EventTaken, LeavesFewer};

use crate::EventFault;
use crate::event_line::{leading_event, read_event};
use crate::header::{Headers, version_of};
use model::{Event, Version};
use std::alloc::{AllocError, Global};
use std::io::Read;
use text_io::{Counted, PIECE, Source, TakenLine};

/// A line of a text of events has no more bytes before its LF.
const LONGEST_LINE: usize = 64;

/// How far the events of a text have been read. It keeps no more of the text than a line.
#[derive(Drop)]
pub struct EventReader {
    room: [u8; LONGEST_LINE],
    number: u64,
    headers: Headers,
    version: Option<Version>,
}

impl EventReader {
    /// Nothing is read yet, and only the header of version 1 is taken.
    pub fn new() -> EventReader
        ensures { IsAtStart VersionOne result }
    {
        EventReader::taking(Headers::VersionOne)
    }

    /// Nothing is read yet, and the header of either version is taken.
    pub fn any() -> EventReader
        ensures { IsAtStart Either result }
    {
        EventReader::taking(Headers::Either)
    }

    fn taking(headers: Headers) -> EventReader
        ensures { IsAtStart headers result }
    {
        EventReader {
            room: [0; LONGEST_LINE],
            number: 1,
            headers,
            version: None,
        }
    }

    /// The version of a source's header, which is read where it wasn't yet. After a fault there is
    /// nothing more to be read.
    #[inline(always)]
    pub fn version<R: Read>(
        &mut self,
        source: &mut Source<'_, R, PIECE>,
    ) -> Result<Version, EventFault>
        ensures same_reader { source.new.reader.ghost_name ≡ source.old.reader.ghost_name }
        ensures taken { (headers : Headers) (first : Counted R) (events : List Event)
            → HasReadEvents headers R.remaining first source.old self.old events
            → VersionTaken headers R.remaining first source.new self.new events result }
        ensures same_version { (version : Version) → self.old.version ≡ Some version
            → result ≡ Ok version }
        ensures kept { IfOk result (λ version. self.new.version ≡ Some version) }
        ensures none_more { most_left source.new ≤ most_left source.old }
    {
        match self.version {
            Some(version) => Ok(version),
            None => self.read_header(source),
        }
    }

    /// The next event of a source, or none where the text ended well. After an end or a fault there
    /// is nothing more to be read.
    pub fn next_event<R: Read>(
        &mut self,
        source: &mut Source<'_, R, PIECE>,
    ) -> Result<Option<Event>, EventFault>
        ensures same_reader { source.new.reader.ghost_name ≡ source.old.reader.ghost_name }
        ensures next { (headers : Headers) (first : Counted R) (events : List Event)
            → HasReadEvents headers R.remaining first source.old self.old events
            → EventTaken headers R.remaining first source.new self.new events result }
        ensures same_version { (version : Version) → self.old.version ≡ Some version
            → self.new.version ≡ Some version }
        ensures fewer_left { LeavesFewer result (most_left source.old) (most_left source.new) }
    {
        let _version = self.version(source)?;
        self.read_line(source)
    }

    #[cold]
    fn read_header<R: Read>(
        &mut self,
        source: &mut Source<'_, R, PIECE>,
    ) -> Result<Version, EventFault>
        ensures same_reader { source.new.reader.ghost_name ≡ source.old.reader.ghost_name }
        ensures taken { (headers : Headers) (first : Counted R) (events : List Event)
            → HasReadEvents headers R.remaining first source.old self.old events
            → self.old.version ≡ None
            → VersionTaken headers R.remaining first source.new self.new events result }
        ensures kept { IfOk result (λ version. self.new.version ≡ Some version) }
        ensures none_more { most_left source.new ≤ most_left source.old }
    {
        match source.take_line(&mut self.room) {
            TakenLine::WithLineFeed(count) => {
                let Some(version) = version_of(self.headers, self.taken(count)) else {
                    return Err(EventFault::NoHeader);
                };
                self.version = Some(version);
                self.number = 2;
                Ok(version)
            }
            TakenLine::AtEnd(_) | TakenLine::TooLong => Err(EventFault::NoHeader),
            TakenLine::Failed => Err(EventFault::ReadFailed),
        }
    }

    /// A line of so many bytes that was taken into the room.
    fn taken(&self, count: usize) -> &[u8]
        ensures { result.now ≡ take (min count longest_event_line) self.now.room }
    {
        &self.room[..count.min(LONGEST_LINE)]
    }

    /// The event of the next line, behind the header. It is told from what is at hand of the source
    /// where that has all of the line.
    #[inline(always)]
    fn read_line<R: Read>(
        &mut self,
        source: &mut Source<'_, R, PIECE>,
    ) -> Result<Option<Event>, EventFault>
        ensures same_reader { source.new.reader.ghost_name ≡ source.old.reader.ghost_name }
        ensures next { (headers : Headers) (first : Counted R) (events : List Event)
            (version : Version)
            → HasReadEvents headers R.remaining first source.old self.old events
            → self.old.version ≡ Some version
            → EventTaken headers R.remaining first source.new self.new events result }
        ensures same_version { self.new.version ≡ self.old.version }
        ensures fewer_left { LeavesFewer result (most_left source.old) (most_left source.new) }
    {
        match leading_event(source.at_hand()) {
            Some((event, count)) => {
                source.take(count);
                self.number = self.number.saturating_add(1);
                Ok(Some(event))
            }
            None => {
                // In a place of its own, so that an event at hand is not put into memory.
                let other = self.read_other_line(source);
                other
            }
        }
    }

    /// The same of a line that is not all at hand, or is wrong.
    #[cold]
    fn read_other_line<R: Read>(
        &mut self,
        source: &mut Source<'_, R, PIECE>,
    ) -> Result<Option<Event>, EventFault>
        ensures same_reader { source.new.reader.ghost_name ≡ source.old.reader.ghost_name }
        ensures next { (headers : Headers) (first : Counted R) (events : List Event)
            (version : Version)
            → HasReadEvents headers R.remaining first source.old self.old events
            → self.old.version ≡ Some version
            → EventTaken headers R.remaining first source.new self.new events result }
        ensures same_version { self.new.version ≡ self.old.version }
        ensures fewer_left { LeavesFewer result (most_left source.old) (most_left source.new) }
    {
        match source.take_line(&mut self.room) {
            TakenLine::WithLineFeed(count) => {
                let Some(event) = read_event(self.taken(count)) else {
                    return Err(EventFault::BadEvent(self.number));
                };
                self.number = self.number.saturating_add(1);
                Ok(Some(event))
            }
            TakenLine::AtEnd(0) => Ok(None),
            TakenLine::AtEnd(_) => Err(EventFault::Unfinished(self.number)),
            TakenLine::TooLong => Err(EventFault::BadEvent(self.number)),
            TakenLine::Failed => Err(EventFault::ReadFailed),
        }
    }
}

/// Reads events of version 1, the whole text. The first fault is answered; a reader that fails is
/// not read again, and the answer is then the fault that its bytes decide, or else `ReadFailed`.
pub fn read_events<R: Read>(
    alloc: Global,
    reader: &mut Counted<R>,
) -> Result<Vec<Event>, EventFault>
    ensures { ReadsText (EventText One) (EventFaultAt VersionOne)
        (R.remaining (counted_inner reader.old)) (R.remaining (counted_inner reader.new))
        (failures_of reader.old) (failures_of reader.new) (event_outcome (read_items result)) }
{
    let mut source = Source::new(reader);
    let (_, events) = read_all(alloc, Headers::VersionOne, &mut source)?;
    Ok(events)
}

/// Reads the version of a text of events and the events, the whole text, as `read_events` does.
pub fn read_events_any<R: Read>(
    alloc: Global,
    reader: &mut Counted<R>,
) -> Result<(Version, Vec<Event>), EventFault>
    ensures { ReadsText (RunText Either) (EventFaultAt Either)
        (R.remaining (counted_inner reader.old)) (R.remaining (counted_inner reader.new))
        (failures_of reader.old) (failures_of reader.new) (event_outcome (read_run result)) }
{
    let mut source = Source::new(reader);
    read_all(alloc, Headers::Either, &mut source)
}

/// Reads the version and the events of a source of which nothing was taken.
fn read_all<R: Read>(
    alloc: Global,
    headers: Headers,
    source: &mut Source<'_, R, PIECE>,
) -> Result<(Version, Vec<Event>), EventFault>
    requires { HasTaken R.remaining (source_reader source.old) source.old [] }
    ensures same_reader { source.new.reader.ghost_name ≡ source.old.reader.ghost_name }
    ensures reads { ReadsText (RunText headers) (EventFaultAt headers)
        (R.remaining (counted_inner (source_reader source.old)))
        (R.remaining (counted_inner (source_reader source.new)))
        (failures_of (source_reader source.old)) (failures_of (source_reader source.new))
        (event_outcome (read_run result)) }
{
    let mut reader = EventReader::taking(headers);
    let mut events = Vec::new(alloc);
    let version = reader.version(source)?;
    while let Some(event) = reader.next_event(source)? {
        events.push(event).map_err(AllocError::from)?;
    }
    Ok((version, events))
}
