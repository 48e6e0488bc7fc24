//! What the file of a tape keeps.
ghost use Rattle.std.specs.Prelude.{◌≡◌, ◌+◌, ◌-◌, ◌*◌, ◌<◌, ◌≤◌};
ghost use Rattle.std.specs.Prelude.{◌^◌, [], ◌∷◌, ◌++◌, is_ok, length};
ghost use Rattle.std.specs.Prelude.{take, IfOk, IfErr, OnOk, OnErr, MatchResult};
ghost use Rattle.std.specs.Io.KnownBytes.{Consumes, IsAtEnd};
ghost use Rattle.text_io.specs.Counted.{counted_inner, failures_of, Rises};
ghost use Rattle.text_io.specs.Sink.{held_back, Puts, Breaks};
ghost use Rattle.text_io.specs.Text.{line_feed};
ghost use Rattle.text_io.specs.Writing.{WritesText};
ghost use Rattle.model.specs.Timetable.{Timetable};
ghost use Rattle.depgraph.specs.AgentParts.{IsPartOf};
ghost use Rattle.agent.specs.MemTape.{mem_state};
ghost use Rattle.agent_commands.specs.TapeCommand.{HasRecords, IsNotShown, IsReadWhole};
ghost use Rattle.agent_commands.specs.TapeCommand.{records_line};
ghost use Rattle.agent_commands.specs.Code.Reports.{IsReported, IsImageOf, IsNoImage};
ghost use Rattle.agent_commands.specs.Code.Reports.{IsReportOf, standing_of, report_text};

use crate::agent_fault::AgentFault;
use agent::replies::reply_to_restart;
use agent::{Agent, Held, MemTape, RECORD_LENGTH, RECORD_SIZE, Tape};
use depgraph::Part;
use ending::put_number;
use event_text::put_reply;
use robot::FileTapeFault;
use std::alloc::Global;
use std::io::{Read, Write};
use text_io::{Counted, Sink, WriteFault};

/// How many bytes at the most stand behind the whole records of a file.
const TAIL: usize = RECORD_SIZE - 1;

/// Where an agent is by its tape, and how many whole records the file has, and bytes behind them.
#[derive(Clone, Copy)]
pub(crate) struct TapeReport {
    pub(crate) held: Held,
    pub(crate) done: u32,
    pub(crate) records: u32,
    pub(crate) torn: u32,
}

/// The bytes of a file as a tape, and how many bytes the file has.
#[derive(Drop)]
struct TapeImage {
    tape: MemTape,
    len: u32,
}

/// Reads the file of a tape, and opens its agent on what it has.
pub(crate) fn read_report<T: Read>(
    alloc: Global,
    part: Part<'_>,
    file: &mut Counted<T>,
) -> Result<TapeReport, AgentFault>
    ensures within { IfOk result (λ report. report.records ≤ 2 * length part.entry.needs) }
    ensures reports { (tt : Timetable) → IsPartOf tt part.entry
        → MatchResult result (IsReported T.remaining tt part.entry.agent file.old file.new)
        (IsNotShown T.remaining tt part.entry.agent file.old file.new) }
{
    let image = read_image(alloc, file, 2 * RECORD_LENGTH * part.own_moves())?;
    let TapeImage { tape, len } = image;
    match Agent::open_part(alloc, part, tape) {
        Ok(agent) => Ok(report_of(&agent, len)),
        Err((fault, _)) => Err(AgentFault::Tape(fault)),
    }
}

/// How many whole records the file of a tape has, on which the agent of a part is opened, or why
/// none is.
pub fn read_records<T: Read>(
    alloc: Global,
    part: Part<'_>,
    file: &mut Counted<T>,
) -> Result<u32, AgentFault>
    ensures within { IfOk result (λ records. records ≤ 2 * length part.entry.needs) }
    ensures has { (tt : Timetable) → IsPartOf tt part.entry
        → MatchResult result
        (HasRecords (IsReadWhole T.remaining file.old file.new) tt part.entry.agent)
        (IsNotShown T.remaining tt part.entry.agent file.old file.new) }
{
    Ok(read_report(alloc, part, file)?.records)
}

/// Reads a file as a tape with room for so many bytes.
fn read_image<T: Read>(
    alloc: Global,
    file: &mut Counted<T>,
    room: u32,
) -> Result<TapeImage, FileTapeFault>
    requires { room + 10 < 2 ^ 32 }
    ensures { MatchResult result (IsImageOf T.remaining room file.old file.new)
        (IsNoImage T.remaining room file.old file.new) }
{
    let room_len = room as usize;
    let mut bytes = vec![in alloc; 0u8; room_len + TAIL + 1]?;
    let len = read_up_to(file, &mut bytes)?;
    if len > room_len + TAIL {
        return Err(FileTapeFault::TooLong);
    }
    let tape = MemTape::from_bytes(alloc, &bytes[..room_len.min(len)], room)?;
    Ok(TapeImage {
        tape,
        len: len as u32,
    })
}

/// Reads up to the end, or until the bytes are full, and answers how many were read.
pub(crate) fn read_up_to<T: Read>(
    file: &mut Counted<T>,
    bytes: &mut [u8],
) -> Result<usize, FileTapeFault>
    ensures within { IfOk result (λ n. n ≤ length bytes.new) }
    ensures bytes { IfOk result
        (λ n. Consumes (T.remaining (counted_inner file.old)) (T.remaining (counted_inner file.new))
        (take n bytes.new)) }
    ensures end { IfOk result (λ n. n < length bytes.new
        → IsAtEnd (T.remaining (counted_inner file.new))) }
    ensures failures { OnOk result (failures_of file.new ≡ failures_of file.old) }
    ensures failed { IfErr result (λ fault. (fault ≡ FileTapeFault.TapeFailed)
        × Rises (failures_of file.old) (failures_of file.new)) }
{
    let mut len = 0;
    'pieces: while len < bytes.len() {
        match file.read(&mut bytes[len..]) {
            Ok(0) => return Ok(len),
            Ok(count) => len += count,
            Err(_) => return Err(FileTapeFault::TapeFailed),
        }
    }
    Ok(len)
}

/// Where the agent is, and what its tape's file of so many bytes has.
fn report_of(agent: &Agent<'_, MemTape>, len: u32) -> TapeReport
    ensures within { result.records ≤ 2 * length agent.now.part.needs }
    ensures reports { (tt : Timetable) → IsPartOf tt agent.now.part
        → IsReportOf tt agent.now len result }
{
    let records = agent.tape().len() / RECORD_LENGTH;
    TapeReport {
        held: agent.held(),
        done: agent.done(),
        records,
        torn: len.saturating_sub(RECORD_LENGTH * records),
    }
}

/// Writes the two lines. The writer is not flushed.
// Compiled by itself, for its room on the stack.
#[inline(never)]
pub(crate) fn write_report<W: Write>(
    report: TapeReport,
    writer: &mut Counted<W>,
) -> Result<(), WriteFault>
    ensures { WritesText (is_ok result) (W.contents (counted_inner writer.old))
        (W.contents (counted_inner writer.new)) (failures_of writer.old) (failures_of writer.new)
        (report_text report) }
{
    let mut sink = Sink::new(writer);
    put_report(&mut sink, report)
}

/// Puts the two lines, and hands them on.
fn put_report<W: Write>(sink: &mut Sink<'_, W>, report: TapeReport) -> Result<(), WriteFault>
    ensures ok { OnOk result (Puts W.contents sink.old sink.new (report_text report)) }
    ensures none_held { OnOk result (held_back sink.new ≡ []) }
    ensures err { OnErr result (Breaks W.contents sink.old sink.new (report_text report)) }
{
    put_reply(sink, &reply_to_restart(report.held, report.done))?;
    put_records(sink, report.records, report.torn)?;
    sink.hand_on()
}

/// Puts how many whole records there are, and how many bytes behind them.
fn put_records<W: Write>(sink: &mut Sink<'_, W>, records: u32, torn: u32) -> Result<(), WriteFault>
    ensures ok { OnOk result
        (Puts W.contents sink.old sink.new (records_line records torn ++ line_feed ∷ [])) }
    ensures err { OnErr result
        (Breaks W.contents sink.old sink.new (records_line records torn ++ line_feed ∷ [])) }
{
    put_number(sink, b"records", records as u64)?;
    put_number(sink, b" torn", torn as u64)?;
    sink.put_byte(b'\n')
}
