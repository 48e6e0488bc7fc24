//! The program over its words: performs the command, and explains its fault.
ghost use Rattle.std.specs.Prelude.{map, string_bytes};
ghost use Rattle.explain.specs.Explaining.{AddsMore};
ghost use Rattle.text_io.specs.Counted.{counted_inner};
ghost use Rattle.ending.specs.Ending.{end_of};
ghost use Rattle.mapf_cmd.specs.Program.{AnswersLine, AnswersWords, Performs, ShowsOn};

use crate::low_leaf::leaf_again;
use crate::on_files::{file_of, files_of, perform_on_files};
use crate::unperformed::end_unperformed;
use agent_commands::{AgentFiles, name_beside};
use command_line::{Asked, Line, OptimalLine, line};
use ending::{Ending, conclude};
use explain::{Style, Subject, explain};
use std::io::{Read, Write};
use std::rt::Files;
use tape_claim::TapeClaim;
use text_io::{Counted, Failure, FaultWords, Origin};

/// What is known of the error output: how explanations look there, and whether somebody watches it,
/// who wants to see progress.
#[derive(Clone, Copy, Debug)]
pub struct Screen {
    pub style: Style,
    pub is_watched: bool,
}

/// Answers the words of the command line, the program's name first, over the files of `rt`: what a
/// command writes goes to `out`, and the line of a fault to `err`, with an explanation behind it in
/// the screen's style, where one is asked for. `rows` says there how far it has come, if somebody
/// watches. An agent reads `input`, and so do `map` and `scen` where their file is `-`. The answer
/// is the exit status.
pub fn run<R: Files + AgentFiles + AllocGlobal, I: Read, W: Write, E: Write>(
    rt: &R,
    words: &[String],
    screen: Screen,
    input: &mut Counted<I>,
    out: &mut Counted<W>,
    err: &mut Counted<E>,
) -> u8
    ensures { AnswersWords R.Reader.remaining R.Tape.remaining R.was_done I.remaining W.contents
        E.contents screen.is_watched (map string_bytes words.now) input.old input.new out.old
        out.new err.old err.new result }
{
    match line(rt.alloc(), words) {
        Ok(asked) => answer(rt, &asked, screen, input, out, err),
        Err(fault) => end_unperformed(words, fault, out, err),
    }
}

/// Performs what is asked for, and explains its fault, where that is asked for too.
fn answer<R: Files + AgentFiles + AllocGlobal, I: Read, W: Write, E: Write>(
    rt: &R,
    asked: &Asked,
    screen: Screen,
    input: &mut Counted<I>,
    out: &mut Counted<W>,
    err: &mut Counted<E>,
) -> u8
    ensures { AnswersLine R.Reader.remaining R.Tape.remaining R.was_done I.remaining W.contents
        E.contents screen.is_watched asked.now input.old input.new out.old out.new err.old err.new
        result }
{
    let ending = perform(rt, &asked.line, screen.is_watched, input, out, err);
    let status = conclude(ending, err);
    if asked.explain {
        if let Some(words) = ending.explained {
            let faults = Faults {
                words,
                cause: ending.cause,
            };
            explain_fault(rt, &asked.line, faults, screen.style, err);
        }
    }
    status
}

/// A fault that is explained, and perhaps one more, which says why.
#[derive(Clone, Copy)]
struct Faults {
    words: FaultWords,
    cause: Option<FaultWords>,
}

/// Performs a command on its files.
fn perform<R: AgentFiles + AllocGlobal, I: Read, W: Write, E: Write>(
    rt: &R,
    line: &Line,
    is_watched: bool,
    input: &mut Counted<I>,
    out: &mut Counted<W>,
    err: &mut Counted<E>,
) -> Ending
    ensures performs { Performs R.Reader.remaining R.Tape.remaining R.was_done I.remaining
        W.contents line.now input.old input.new out.old out.new (end_of result) }
    ensures shows { ShowsOn E.contents is_watched line.now err.old err.new }
{
    match perform_on_files(rt, line, is_watched, input, out, err) {
        Ok(ending) => ending,
        Err(origin) => Ending::gave_up(Failure::OpenFailed.words().of(origin)),
    }
}

/// Explains the fault of a command by its files.
// Compiled by itself, for its room on the stack.
#[inline(never)]
fn explain_fault<R: Files + AllocGlobal, E: Write>(
    rt: &R,
    line: &Line,
    faults: Faults,
    style: Style,
    err: &mut Counted<E>,
)
    ensures { AddsMore (E.contents (counted_inner err.old)) (E.contents (counted_inner err.new)) }
{
    match line {
        Line::Agent {
            map,
            plan,
            tape,
            claim,
            ..
        } if *claim != TapeClaim::Any => {
            explain_agent(rt, [map, plan, tape], faults, style, err);
        }
        Line::Optimal(optimal) => explain_proof(rt, optimal, faults.words, style, err),
        _ => explain_by_files(rt, line, faults.words, style, err),
    }
}

/// Explains the fault of an agent by a map, a plan and a tape, beside which another plan may be
/// kept.
fn explain_agent<R: Files + AllocGlobal, E: Write>(
    rt: &R,
    paths: [&str; 3],
    faults: Faults,
    style: Style,
    err: &mut Counted<E>,
)
    ensures { AddsMore (E.contents (counted_inner err.old)) (E.contents (counted_inner err.new)) }
{
    let [map, plan, tape] = paths;
    let files = [
        file_of(Origin::Map, map),
        file_of(Origin::Plan, plan),
        file_of(Origin::Tape, tape),
    ];
    let words = faults.words;
    let Ok(beside) = name_beside(rt.alloc(), tape) else {
        explain(rt, &files, of_faults(&[words]), style, err);
        return;
    };
    let [map, plan, tape] = files;
    let files = [map, plan, tape, file_of(Origin::KeptPlan, &beside)];
    match faults.cause {
        Some(cause) => explain(rt, &files, of_faults(&[words, cause]), style, err),
        None => explain(rt, &files, of_faults(&[words]), style, err),
    }
}

/// Explains the fault of a proof, with what its leaf says where that is too low.
fn explain_proof<R: Files + AllocGlobal, E: Write>(
    rt: &R,
    line: &OptimalLine,
    words: FaultWords,
    style: Style,
    err: &mut Counted<E>,
)
    ensures { AddsMore (E.contents (counted_inner err.old)) (E.contents (counted_inner err.new)) }
{
    let files = [
        file_of(Origin::Map, &line.map),
        file_of(Origin::Plan, &line.plan),
        file_of(Origin::Proof, &line.proof),
    ];
    let leaf = leaf_again(rt, line, &words);
    let subject = Subject {
        faults: &[words],
        more: match &leaf {
            Some(text) => text.as_str(),
            None => "",
        },
    };
    explain(rt, &files, subject, style, err);
}

/// Explains the fault of a command by the files that it names.
fn explain_by_files<R: Files + AllocGlobal, E: Write>(
    rt: &R,
    line: &Line,
    words: FaultWords,
    style: Style,
    err: &mut Counted<E>,
)
    ensures { AddsMore (E.contents (counted_inner err.old)) (E.contents (counted_inner err.new)) }
{
    let faults = [words];
    let subject = of_faults(&faults);
    match files_of(line) {
        (first, Some(second), Some(third)) => {
            explain(rt, &[first, second, third], subject, style, err);
        }
        (first, Some(second), None) => explain(rt, &[first, second], subject, style, err),
        (first, None, _) => explain(rt, &[first], subject, style, err),
    }
}

/// Faults of which no more is known.
fn of_faults(faults: &[FaultWords]) -> Subject<'_> {
    Subject { faults, more: "" }
}
