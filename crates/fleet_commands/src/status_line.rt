//! The lines of `mapf status`.
ghost use Rattle.std.specs.Prelude.{◌≡◌, [], ◌++◌, is_ok, OnOk, OnErr};
ghost use Rattle.std.specs.List.{flat_map};
ghost use Rattle.text_io.specs.FaultWords.{words_of};
ghost use Rattle.text_io.specs.Counted.{counted_inner, failures_of};
ghost use Rattle.text_io.specs.Sink.{held_back, Puts, Breaks};
ghost use Rattle.text_io.specs.Writing.{WritesText};
ghost use Rattle.ending.specs.Pieces.{pieces_text};
ghost use Rattle.fleet_commands.specs.StatusText.{agent_text, begun_text, counts_text};
ghost use Rattle.fleet_commands.specs.StatusText.{fault_text, held_pieces, keeping_text};
ghost use Rattle.fleet_commands.specs.StatusText.{keeps_text, parted_text, progress_text};
ghost use Rattle.fleet_commands.specs.StatusText.{said, status_line, unmet_text};

use crate::keeping::Keeping;
use crate::one_run::Unmet;
use agent_commands::AgentFault;
use ending::{Piece, put_ended, put_fault_words, put_pieces};
use model::Held;
use std::io::Write;
use text_io::{Counted, FaultWords, Sink, WriteFault};

/// Where an agent is, how many of all its moves it has finished, and what keeps it from the next.
#[derive(Clone, Copy)]
pub(crate) struct AgentLine {
    pub(crate) agent: u16,
    pub(crate) held: Held,
    pub(crate) done: u32,
    pub(crate) all: u32,
    pub(crate) keeping: Keeping,
}

/// A line of what all tapes say together.
#[derive(Clone, Copy)]
pub(crate) enum StatusLine {
    Agent(AgentLine),
    /// No agent is opened on a tape.
    Fault { agent: u16, fault: AgentFault },
    /// So many wait for an agent that waits for nobody.
    Root { agent: u16, keeps: u32 },
    /// So many wait in a rotation, or for it.
    Circle { number: u64, keeps: u32 },
    /// An agent has begun a move too early.
    Unmet { agent: u16, unmet: Unmet },
    /// An agent has begun its move in a rotation.
    Begun { number: u64 },
    /// The plan beside the tape of the other agent differs from this time on, and neither goes on
    /// from the other.
    Parted { agent: u16, other: u16, time: u32 },
    /// The plan beside a tape can't be read.
    BesideFault { agent: u16, fault: AgentFault },
}

/// Writes the lines. The writer is not flushed.
// Compiled by itself, for its room on the stack.
#[inline(never)]
pub(crate) fn write_lines<W: Write>(
    lines: &[StatusLine],
    json: bool,
    writer: &mut Counted<W>,
) -> Result<(), WriteFault>
    ensures { WritesText (is_ok result) (W.contents (counted_inner writer.old))
        (W.contents (counted_inner writer.new)) (failures_of writer.old) (failures_of writer.new)
        (flat_map (status_line json) lines.now) }
{
    let mut sink = Sink::new(writer);
    put_lines(&mut sink, json, lines)
}

/// Puts the lines, and hands them on.
fn put_lines<W: Write>(
    sink: &mut Sink<'_, W>,
    json: bool,
    lines: &[StatusLine],
) -> Result<(), WriteFault>
    ensures ok { OnOk result
        (Puts W.contents sink.old sink.new (flat_map (status_line json) lines.now)) }
    ensures none_held { OnOk result (held_back sink.new ≡ []) }
    ensures err { OnErr result
        (Breaks W.contents sink.old sink.new (flat_map (status_line json) lines.now)) }
{
    put_all(sink, json, lines)?;
    sink.hand_on()
}

/// Puts one line after another.
fn put_all<W: Write>(
    sink: &mut Sink<'_, W>,
    json: bool,
    lines: &[StatusLine],
) -> Result<(), WriteFault>
    ensures ok { OnOk result
        (Puts W.contents sink.old sink.new (flat_map (status_line json) lines.now)) }
    ensures err { OnErr result
        (Breaks W.contents sink.old sink.new (flat_map (status_line json) lines.now)) }
{
    for line in lines {
        put_line(sink, json, line)?;
    }
    Ok(())
}

/// Puts a line.
fn put_line<W: Write>(
    sink: &mut Sink<'_, W>,
    json: bool,
    line: &StatusLine,
) -> Result<(), WriteFault>
    ensures ok { OnOk result (Puts W.contents sink.old sink.new (status_line json line.now)) }
    ensures err { OnErr result (Breaks W.contents sink.old sink.new (status_line json line.now)) }
{
    match line {
        StatusLine::Agent(line) => put_agent_line(sink, json, line),
        StatusLine::Fault { agent, fault } => {
            let head = said(json, b"", b"{\"agent\":");
            put_fault(
                sink,
                json,
                Piece::new(head, u128::from(*agent)),
                fault.words(),
            )
        }
        StatusLine::Root { agent, keeps } => {
            let head = said(json, b"root ", b"{\"root\":");
            put_keeps(sink, json, Piece::new(head, u128::from(*agent)), *keeps)
        }
        StatusLine::Circle { number, keeps } => {
            let head = said(json, b"rotation ", b"{\"rotation\":");
            put_keeps(sink, json, Piece::new(head, u128::from(*number)), *keeps)
        }
        StatusLine::Unmet { agent, unmet } => put_unmet(sink, json, *agent, *unmet),
        StatusLine::Begun { number } => put_begun(sink, json, *number),
        StatusLine::Parted { agent, other, time } => put_parted(sink, json, *agent, *other, *time),
        StatusLine::BesideFault { agent, fault } => {
            let head = said(json, b"beside ", b"{\"beside\":");
            put_fault(
                sink,
                json,
                Piece::new(head, u128::from(*agent)),
                fault.words(),
            )
        }
    }
}

/// The one, or as JSON the other.
fn said(json: bool, words: &'static [u8], object: &'static [u8]) -> &'static [u8]
    ensures { result.now ≡ said json words.now object.now }
{
    if json { object } else { words }
}

/// Puts the line of an agent.
fn put_agent_line<W: Write>(
    sink: &mut Sink<'_, W>,
    json: bool,
    line: &AgentLine,
) -> Result<(), WriteFault>
    ensures ok { OnOk result
        (Puts W.contents sink.old sink.new
        (progress_text json line.now ++ keeping_text json line.now.keeping)) }
    ensures err { OnErr result
        (Breaks W.contents sink.old sink.new
        (progress_text json line.now ++ keeping_text json line.now.keeping)) }
{
    put_progress(sink, json, line)?;
    put_keeping(sink, json, line.keeping)
}

/// Puts the fault of what has a number.
fn put_fault<W: Write>(
    sink: &mut Sink<'_, W>,
    json: bool,
    head: Piece,
    words: FaultWords,
) -> Result<(), WriteFault>
    ensures ok { OnOk result
        (Puts W.contents sink.old sink.new
        (fault_text json head.word.now head.number (words_of words))) }
    ensures err { OnErr result
        (Breaks W.contents sink.old sink.new
        (fault_text json head.word.now head.number (words_of words))) }
{
    put_pieces(sink, &[head])?;
    let behind = said(json, b" ", b",\"fault\":\"");
    put_fault_words(sink, behind, words, said(json, b"\n", b"\"}\n"))
}

/// Puts which agent it is.
fn put_agent<W: Write>(sink: &mut Sink<'_, W>, json: bool, agent: u16) -> Result<(), WriteFault>
    ensures ok { OnOk result (Puts W.contents sink.old sink.new (agent_text json agent)) }
    ensures err { OnErr result (Breaks W.contents sink.old sink.new (agent_text json agent)) }
{
    let agent = Piece::new(said(json, b"", b"{\"agent\":"), u128::from(agent));
    put_pieces(sink, &[agent])
}

/// Puts where an agent is, and how many of all its moves it has finished.
fn put_progress<W: Write>(
    sink: &mut Sink<'_, W>,
    json: bool,
    line: &AgentLine,
) -> Result<(), WriteFault>
    ensures ok { OnOk result (Puts W.contents sink.old sink.new (progress_text json line.now)) }
    ensures err { OnErr result (Breaks W.contents sink.old sink.new (progress_text json line.now)) }
{
    put_place(sink, json, line)?;
    put_counts(sink, json, line)
}

fn put_place<W: Write>(
    sink: &mut Sink<'_, W>,
    json: bool,
    line: &AgentLine,
) -> Result<(), WriteFault>
    ensures ok { OnOk result
        (Puts W.contents sink.old sink.new
        (agent_text json line.now.agent ++ pieces_text (held_pieces json line.now.held))) }
    ensures err { OnErr result
        (Breaks W.contents sink.old sink.new
        (agent_text json line.now.agent ++ pieces_text (held_pieces json line.now.held))) }
{
    put_agent(sink, json, line.agent)?;
    put_held(sink, json, line.held)
}

fn put_counts<W: Write>(
    sink: &mut Sink<'_, W>,
    json: bool,
    line: &AgentLine,
) -> Result<(), WriteFault>
    ensures ok { OnOk result (Puts W.contents sink.old sink.new (counts_text json line.now)) }
    ensures err { OnErr result (Breaks W.contents sink.old sink.new (counts_text json line.now)) }
{
    let done = Piece::new(said(json, b" done ", b"],\"done\":"), u128::from(line.done));
    let all = Piece::new(said(json, b" of ", b",\"of\":"), u128::from(line.all));
    put_pieces(sink, &[done, all])
}

/// Puts the cells that an agent holds.
fn put_held<W: Write>(sink: &mut Sink<'_, W>, json: bool, held: Held) -> Result<(), WriteFault>
    ensures ok { OnOk result
        (Puts W.contents sink.old sink.new (pieces_text (held_pieces json held))) }
    ensures err { OnErr result
        (Breaks W.contents sink.old sink.new (pieces_text (held_pieces json held))) }
{
    let comma = said(json, b" ", b",");
    match held {
        Held::At(at) => {
            let x = Piece::new(said(json, b" at ", b",\"at\":["), u128::from(at.x));
            put_pieces(sink, &[x, Piece::new(comma, u128::from(at.y))])
        }
        Held::Between(from, to) => {
            let head = said(json, b" between ", b",\"between\":[");
            let x = Piece::new(head, u128::from(from.x));
            let y = Piece::new(comma, u128::from(from.y));
            let u = Piece::new(comma, u128::from(to.x));
            let v = Piece::new(comma, u128::from(to.y));
            put_pieces(sink, &[x, y, u, v])
        }
    }
}

/// Puts what keeps an agent, and ends its line.
fn put_keeping<W: Write>(
    sink: &mut Sink<'_, W>,
    json: bool,
    keeping: Keeping,
) -> Result<(), WriteFault>
    ensures ok { OnOk result (Puts W.contents sink.old sink.new (keeping_text json keeping)) }
    ensures err { OnErr result (Breaks W.contents sink.old sink.new (keeping_text json keeping)) }
{
    match keeping {
        Keeping::Unknown => sink.put(said(json, b"\n", b"}\n")),
        Keeping::OwnMove => sink.put(said(json, b"\n", b",\"state\":\"moving\"}\n")),
        Keeping::OwnEnd => sink.put(said(json, b" arrived\n", b",\"state\":\"arrived\"}\n")),
        Keeping::Nothing => sink.put(said(json, b" ready\n", b",\"state\":\"ready\"}\n")),
        Keeping::Other { agent, count } => {
            let head = said(json, b" waits ", b",\"state\":\"waits\",\"for\":");
            let agent = Piece::new(head, u128::from(agent));
            let until = said(json, b" ", b",\"until\":");
            let pieces = [agent, Piece::new(until, u128::from(count))];
            put_ended(sink, &pieces, said(json, b"\n", b"}\n"))
        }
    }
}

/// Puts how many wait for what has a number.
fn put_keeps<W: Write>(
    sink: &mut Sink<'_, W>,
    json: bool,
    head: Piece,
    keeps: u32,
) -> Result<(), WriteFault>
    ensures ok { OnOk result
        (Puts W.contents sink.old sink.new (keeps_text json head.word.now head.number keeps)) }
    ensures err { OnErr result
        (Breaks W.contents sink.old sink.new (keeps_text json head.word.now head.number keeps)) }
{
    let word = said(json, b" keeps ", b",\"keeps\":");
    let pieces = [head, Piece::new(word, u128::from(keeps))];
    put_ended(sink, &pieces, said(json, b"\n", b"}\n"))
}

/// Puts which agent has begun a move too early, and what it should have waited for.
fn put_unmet<W: Write>(
    sink: &mut Sink<'_, W>,
    json: bool,
    agent: u16,
    unmet: Unmet,
) -> Result<(), WriteFault>
    ensures ok { OnOk result
        (Puts W.contents sink.old sink.new (unmet_text json agent unmet.agent unmet.count)) }
    ensures err { OnErr result
        (Breaks W.contents sink.old sink.new (unmet_text json agent unmet.agent unmet.count)) }
{
    let head = said(
        json,
        b"NotOneRun ",
        b"{\"fault\":\"NotOneRun\",\"agents\":[",
    );
    let agent = Piece::new(head, u128::from(agent));
    let other = Piece::new(said(json, b" ", b","), u128::from(unmet.agent));
    let count = Piece::new(said(json, b" ", b"],\"until\":"), u128::from(unmet.count));
    put_ended(sink, &[agent, other, count], said(json, b"\n", b"}\n"))
}

/// Puts which rotation was begun.
fn put_begun<W: Write>(sink: &mut Sink<'_, W>, json: bool, number: u64) -> Result<(), WriteFault>
    ensures ok { OnOk result (Puts W.contents sink.old sink.new (begun_text json number)) }
    ensures err { OnErr result (Breaks W.contents sink.old sink.new (begun_text json number)) }
{
    let head = said(
        json,
        b"NotOneRun ",
        b"{\"fault\":\"NotOneRun\",\"rotation\":",
    );
    put_ended(
        sink,
        &[Piece::new(head, u128::from(number))],
        said(json, b"\n", b"}\n"),
    )
}

/// Puts from which time on the plans of two agents differ.
fn put_parted<W: Write>(
    sink: &mut Sink<'_, W>,
    json: bool,
    agent: u16,
    other: u16,
    time: u32,
) -> Result<(), WriteFault>
    ensures ok { OnOk result
        (Puts W.contents sink.old sink.new (parted_text json agent other time)) }
    ensures err { OnErr result
        (Breaks W.contents sink.old sink.new (parted_text json agent other time)) }
{
    let head = said(
        json,
        b"PlansPart ",
        b"{\"fault\":\"PlansPart\",\"agents\":[",
    );
    let agent = Piece::new(head, u128::from(agent));
    let other = Piece::new(said(json, b" ", b","), u128::from(other));
    let time = Piece::new(said(json, b" ", b"],\"time\":"), u128::from(time));
    put_ended(sink, &[agent, other, time], said(json, b"\n", b"}\n"))
}
