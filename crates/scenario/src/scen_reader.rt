//! Reading the text of a scenario.
ghost use Rattle.std.specs.Prelude.{◌≡◌, ◌≤◌, true, false, [], length, MatchResult};
ghost use Rattle.std.specs.List.{AllByRecursion};
ghost use Rattle.text_io.specs.Counted.{counted_inner, failures_of};
ghost use Rattle.text_io.specs.Source.{source_reader};
ghost use Rattle.text_io.specs.Text.{IsLine};
ghost use Rattle.text_io.specs.Lines.{HasTaken};
ghost use Rattle.text_io.specs.Reading.{ReadsText};
ghost use Rattle.scenario.specs.Query.{IsQuery, longest_line};
ghost use Rattle.scenario.specs.ScenText.{ScenText};
ghost use Rattle.scenario.specs.ScenFault.{ScenFaultAt, scen_outcome};
ghost use Rattle.scenario.specs.Code.Parsing.{due_after, Adds, RefusesLine};
ghost use Rattle.scenario.specs.Code.AtHand.{AddsAtHand};

use crate::fields::content_of;
use crate::row_reader::read_row;
use crate::version::is_version;
use crate::{Row, ScenFault, Scenario};
use memchr::memchr;
use std::alloc::{AllocError, Global};
use std::io::Read;
use text_io::{Counted, PIECE, Source, TakenLine};

/// A line of a scenario has no more bytes before its LF.
const LONGEST_LINE: usize = 4096;

/// Reads a scenario of version 1, the whole text. The first faulty line is answered; a reader that
/// fails is not read again, and the answer is then the fault that its bytes decide, or else
/// `ReadFailed`.
pub fn read_scen<R: Read>(alloc: Global, reader: &mut Counted<R>) -> Result<Scenario, ScenFault>
    ensures { ReadsText ScenText ScenFaultAt (R.remaining (counted_inner reader.old))
        (R.remaining (counted_inner reader.new))
        (failures_of reader.old) (failures_of reader.new) (scen_outcome result) }
{
    let mut source = Source::new(reader);
    read_lines(alloc, &mut source)
}

/// Reads the lines of a source of which nothing was taken.
fn read_lines<R: Read>(
    alloc: Global,
    source: &mut Source<'_, R, PIECE>,
) -> Result<Scenario, ScenFault>
    requires { HasTaken R.remaining (source_reader source.old) source.old [] }
    ensures same_reader { source.new.reader.ghost_name ≡ source.old.reader.ghost_name }
    ensures reads { ReadsText ScenText ScenFaultAt
        (R.remaining (counted_inner (source_reader source.old)))
        (R.remaining (counted_inner (source_reader source.new)))
        (failures_of (source_reader source.old)) (failures_of (source_reader source.new))
        (scen_outcome result) }
{
    text_io::laws::places();
    let mut room = [0; LONGEST_LINE];
    let mut progress = Progress::new(alloc);
    let mut number = 1u64;
    'lines: loop {
        if progress.add_line_at_hand(alloc, source, number)? {
            number = number.saturating_add(1);
            continue;
        }
        match source.take_line(&mut room) {
            TakenLine::WithLineFeed(count) => {
                progress.add_line(alloc, &room[..count], number)?;
                number = number.saturating_add(1);
            }
            TakenLine::AtEnd(count) => {
                progress.add_line(alloc, &room[..count], number)?;
                return progress.scenario();
            }
            TakenLine::TooLong => return Err(ScenFault::LineTooLong(number)),
            TakenLine::Failed => return Err(ScenFault::ReadFailed),
        }
    }
}

/// What the lines so far said.
#[derive(Drop)]
struct Progress {
    has_version: bool,
    rows: Vec<Row>,
}

impl Progress {
    fn new(alloc: Global) -> Progress
        ensures version { result.has_version ≡ false }
        ensures rows { result.rows.items ≡ [] }
    {
        Progress {
            has_version: false,
            rows: Vec::new(alloc),
        }
    }

    /// Adds a line that is all at hand, and takes it with its LF. Answers whether there was one:
    /// most lines are there, and are not copied.
    fn add_line_at_hand<R: Read>(
        &mut self,
        alloc: Global,
        source: &mut Source<'_, R, PIECE>,
        number: u64,
    ) -> Result<bool, ScenFault>
        ensures { AddsAtHand R.remaining source.old source.new self.old self.new number result }
    {
        match memchr(b'\n', source.at_hand()) {
            Some(count) if count <= LONGEST_LINE => {
                self.add_line(alloc, &source.at_hand()[..count], number)?;
                source.take(count + 1);
                Ok(true)
            }
            _ => Ok(false),
        }
    }

    /// Adds a line: one that is skipped, the version, or a row.
    fn add_line(&mut self, alloc: Global, line: &[u8], number: u64) -> Result<(), ScenFault>
        requires line { IsLine line.now }
        requires short { length line.now ≤ longest_line }
        ensures { MatchResult result
            (λ _. Adds self.old.has_version self.new.has_version self.old.rows.items
            self.new.rows.items line.now)
            (RefusesLine (due_after self.old.has_version) number line.now) }
    {
        if self.has_version {
            if let Some(row) = read_row(alloc, line, number, self.rows.last())? {
                self.rows.push(row).map_err(AllocError::from)?;
            }
            return Ok(());
        }
        let content = content_of(line);
        if !content.is_empty() {
            if !is_version(content) {
                return Err(ScenFault::NoVersion);
            }
            self.has_version = true;
        }
        Ok(())
    }

    /// The scenario that the lines are, if there was a version.
    fn scenario(self) -> Result<Scenario, ScenFault>
        requires { self.has_version ≡ true → AllByRecursion IsQuery self.rows.items }
        ensures { MatchResult result (λ s. (self.has_version ≡ true) × (s ≡ self.rows.items))
            (λ fault. (self.has_version ≡ false) × (fault ≡ ScenFault.NoVersion)) }
    {
        if self.has_version {
            Ok(Scenario::from_rows(self.rows))
        } else {
            Err(ScenFault::NoVersion)
        }
    }
}
