//! Each command on its files, which are opened in the order of its words. An error is the file that
//! can't be opened.
ghost use Rattle.std.specs.Prelude.{◌≡◌, ◌⊎◌, ◌||◌, IfOk, MatchBool};
ghost use Rattle.std.specs.Prelude.{MatchOption, MatchResult, string_bytes};
ghost use Rattle.ending.specs.Ending.{end_of};
ghost use Rattle.text_commands.specs.RowCommand.{AnswersRow};
ghost use Rattle.text_commands.specs.RowsCommand.{AnswersRows, ShowsProgress};
ghost use Rattle.plan_commands.specs.ContinuesCommand.{AnswersContinues};
ghost use Rattle.proof_commands.specs.OptimalCommand.{AnswersOptimal};
ghost use Rattle.run_commands.specs.RunCommand.{AnswersRun};
ghost use Rattle.agent_commands.specs.AgentCommand.{AnswersAgent};
ghost use Rattle.agent_commands.specs.TapeCommand.{AnswersTape, EndsWithoutTape};
ghost use Rattle.mapf_cmd.specs.Program.{AnswersFleet, AnswersQuery, AnswersText, CheckOn};
ghost use Rattle.mapf_cmd.specs.Program.{IsJustOpened, OnFileOrInput, OnTwoFiles};
ghost use Rattle.mapf_cmd.specs.Program.{OnThreeFiles, PerformsOn};
ghost use Rattle.mapf_cmd.specs.Program.{ShowsOn};
ghost use Rattle.mapf_cmd.specs.Program.{rows_asked, terms_of};

use agent_commands::{AgentFault, AgentFiles, ReadFiles, Seat, agent_command, tape_command};
use check_commands::{BoundForm, CheckTerms, bound_command, check_command};
use command_line::{
    CheckLine, FleetLine, FleetQuery, Line, OptimalLine, PlanQuery, RowsLine, TextQuery,
};
use ending::Ending;
use explain::NamedFile;
use fleet_commands::{NewPlan, anew_command, handover_command, lost_command, status_command};
use plan_commands::continues_command;
use proof_commands::optimal_command;
use run_commands::run_command;
use std::alloc::Global;
use std::io::{Read, Write};
use text_commands::{RowsAsked, row_command, rows_command};
use text_io::{Counted, Origin};

/// Performs a command on its files. Where `is_watched` is set, `rows` says on `err` how far it has
/// come.
pub(crate) fn perform_on_files<R: AgentFiles + AllocGlobal, I: Read, W: Write, E: Write>(
    rt: &R,
    line: &Line,
    is_watched: bool,
    input: &mut Counted<I>,
    out: &mut Counted<W>,
    err: &mut Counted<E>,
) -> Result<Ending, Origin>
    ensures { MatchResult result
        (λ ending. PerformsOn R.Reader.remaining R.Tape.remaining R.was_done I.remaining
        W.contents line.now input.old input.new out.old out.new (end_of ending)
        × ShowsOn E.contents is_watched line.now err.old err.new)
        (λ _. (input.new ≡ input.old) × (out.new ≡ out.old) × (err.new ≡ err.old)) }
{
    match line {
        Line::Text { file, query } => text_on_file(rt, file, *query, input, out),
        Line::Row { map, scen, row } => row_on_files(rt, map, scen, *row, out),
        Line::Rows(rows) => rows_on_files(rt, rows, is_watched, out, err),
        Line::Check(check) => check_on_files(rt, check, out),
        Line::Query { map, plan, query } => query_on_files(rt, map, plan, *query, out),
        Line::Continues { map, old, new } => continues_on_files(rt, [map, old, new], out),
        Line::Optimal(optimal) => optimal_on_files(rt, optimal, out),
        Line::Run {
            map,
            plan,
            events,
            complete,
        } => run_on_files(rt, [map, plan, events], *complete, out),
        Line::Agent {
            map,
            plan,
            id,
            tape,
            claim,
        } => {
            let seat = Seat {
                id: *id,
                path: tape,
                claim: *claim,
            };
            agent_on_files(rt, [map, plan], seat, input, out)
        }
        Line::Tape {
            map,
            plan,
            id,
            tape,
        } => tape_on_files(rt, [map, plan, tape], *id, out),
        Line::Fleet(fleet) => fleet_on_files(rt, fleet, out),
    }
}

/// Opens a file to be read. Where that fails, the answer is what the file would be.
fn open_file<R: ReadFiles>(rt: &R, path: &str, origin: Origin) -> Result<Counted<R::Reader>, Origin>
    ensures { IfOk result (IsJustOpened R.Reader.remaining R.was_done) }
{
    match rt.open_input(path) {
        Ok(file) => Ok(Counted::new(file)),
        Err(_) => Err(origin),
    }
}

/// Answers a query on the one file of a command, or on the input where that is `-`.
// Compiled by itself, for its room on the stack.
#[inline(never)]
fn text_on_file<R: ReadFiles + AllocGlobal, I: Read, W: Write>(
    rt: &R,
    file: &str,
    query: TextQuery,
    input: &mut Counted<I>,
    out: &mut Counted<W>,
) -> Result<Ending, Origin>
    ensures { MatchResult result
        (λ ending. OnFileOrInput (IsJustOpened R.Reader.remaining R.was_done) file.now
        (λ a b. AnswersText I.remaining W.contents query a b out.old out.new (end_of ending))
        (λ a b. AnswersText R.Reader.remaining W.contents query a b out.old out.new (end_of ending))
        input.old input.new)
        (λ _. (input.new ≡ input.old) × (out.new ≡ out.old)) }
{
    match file {
        "-" => Ok(answer_text(rt.alloc(), input, query, out)),
        _ => {
            let mut text = open_file(rt, file, origin_of(query))?;
            Ok(answer_text(rt.alloc(), &mut text, query, out))
        }
    }
}

/// Answers a query on a map or a scenario.
fn answer_text<R: Read, W: Write>(
    alloc: Global,
    text: &mut Counted<R>,
    query: TextQuery,
    out: &mut Counted<W>,
) -> Ending
    ensures { AnswersText R.remaining W.contents query text.old text.new out.old out.new
        (end_of result) }
{
    match query {
        TextQuery::Map { block: None } => text_commands::map_command::perform(alloc, text, out),
        TextQuery::Map { block: Some(cell) } => {
            text_commands::block_command::perform(alloc, text, cell, out)
        }
        TextQuery::Scen => text_commands::scen_command::perform(alloc, text, out),
    }
}

/// What the file is of that a query is on.
fn origin_of(query: TextQuery) -> Origin {
    match query {
        TextQuery::Scen => Origin::Scenario,
        _ => Origin::Map,
    }
}

fn row_on_files<R: ReadFiles + AllocGlobal, W: Write>(
    rt: &R,
    map: &str,
    scen: &str,
    row: u32,
    out: &mut Counted<W>,
) -> Result<Ending, Origin>
    ensures { MatchResult result
        (λ ending. OnTwoFiles (IsJustOpened R.Reader.remaining R.was_done)
        (λ a b c d. AnswersRow R.Reader.remaining R.Reader.remaining W.contents a b c d row out.old
        out.new (end_of ending)))
        (λ _. out.new ≡ out.old) }
{
    let mut map = open_file(rt, map, Origin::Map)?;
    let mut scen = open_file(rt, scen, Origin::Scenario)?;
    Ok(row_command::perform(rt.alloc(), &mut map, &mut scen, row, out))
}

fn rows_on_files<R: ReadFiles + AllocGlobal, W: Write, E: Write>(
    rt: &R,
    line: &RowsLine,
    is_watched: bool,
    out: &mut Counted<W>,
    err: &mut Counted<E>,
) -> Result<Ending, Origin>
    ensures { MatchResult result
        (λ ending. OnTwoFiles (IsJustOpened R.Reader.remaining R.was_done)
        (λ a b c d. AnswersRows R.Reader.remaining R.Reader.remaining W.contents (rows_asked
        line.now) a b c d out.old out.new (end_of ending))
        × ShowsProgress E.contents (line.now.progress || is_watched) err.old err.new)
        (λ _. (out.new ≡ out.old) × (err.new ≡ err.old)) }
{
    let asked = RowsAsked {
        from: line.from,
        to: line.to,
        straight: line.straight,
        progress: is_shown(line.progress, is_watched),
    };
    let mut map = open_file(rt, &line.map, Origin::Map)?;
    let mut scen = open_file(rt, &line.scen, Origin::Scenario)?;
    Ok(rows_command::perform(rt.alloc(), &mut map, &mut scen, &asked, out, err))
}

/// Whether progress is shown: where it is asked for, and on a terminal.
fn is_shown(is_asked: bool, is_watched: bool) -> bool
    ensures { result ≡ is_asked || is_watched }
{
    is_asked || is_watched
}

fn check_on_files<R: ReadFiles + AllocGlobal, W: Write>(
    rt: &R,
    line: &CheckLine,
    out: &mut Counted<W>,
) -> Result<Ending, Origin>
    ensures { MatchResult result
        (λ ending. CheckOn R.Reader.remaining R.was_done W.contents line.now.scen (terms_of
        line.now) out.old out.new (end_of ending)) (λ _. out.new ≡ out.old) }
{
    let terms = CheckTerms {
        due: line.agents,
        all: line.all,
        bound: line.bound,
        no_rotation: line.no_rotation,
        json: line.json,
    };
    let mut map = open_file(rt, &line.map, Origin::Map)?;
    let mut plan = open_file(rt, &line.plan, Origin::Plan)?;
    match &line.scen {
        None => Ok(check_command::perform(rt.alloc(), &mut map, &mut plan, &terms, out)),
        Some(scen) => {
            let mut scen = open_file(rt, scen, Origin::Scenario)?;
            Ok(check_command::perform_fit(rt.alloc(), &mut map, &mut plan, &mut scen, &terms, out))
        }
    }
}

fn query_on_files<R: ReadFiles + AllocGlobal, W: Write>(
    rt: &R,
    map: &str,
    plan: &str,
    query: PlanQuery,
    out: &mut Counted<W>,
) -> Result<Ending, Origin>
    ensures { MatchResult result
        (λ ending. OnTwoFiles (IsJustOpened R.Reader.remaining R.was_done)
        (λ a b c d. AnswersQuery R.Reader.remaining R.Reader.remaining W.contents query a b c d
        out.old out.new (end_of ending)))
        (λ _. out.new ≡ out.old) }
{
    let mut map = open_file(rt, map, Origin::Map)?;
    let mut plan = open_file(rt, plan, Origin::Plan)?;
    Ok(answer_query(rt.alloc(), &mut map, &mut plan, query, out))
}

/// Answers a query on a plan on a map.
fn answer_query<M: Read, P: Read, W: Write>(
    alloc: Global,
    map: &mut Counted<M>,
    plan: &mut Counted<P>,
    query: PlanQuery,
    out: &mut Counted<W>,
) -> Ending
    ensures { AnswersQuery M.remaining P.remaining W.contents query map.old map.new plan.old
        plan.new out.old out.new (end_of result) }
{
    match query {
        PlanQuery::Deps { cell: None } => {
            plan_commands::deps_command::perform(alloc, map, plan, out)
        }
        PlanQuery::Deps { cell: Some(cell) } => {
            plan_commands::deps_cell_command::perform(alloc, map, plan, cell, out)
        }
        PlanQuery::Path { agent } => {
            plan_commands::path_command::perform(alloc, map, plan, agent, out)
        }
        PlanQuery::Bound { agents, json } => {
            let form = BoundForm { agents, json };
            bound_command::perform(alloc, map, plan, form, out)
        }
        PlanQuery::Cut { time } => {
            plan_commands::cut_command::perform(alloc, map, plan, time, out)
        }
    }
}

fn continues_on_files<R: ReadFiles + AllocGlobal, W: Write>(
    rt: &R,
    paths: [&str; 3],
    out: &mut Counted<W>,
) -> Result<Ending, Origin>
    ensures { MatchResult result
        (λ ending. OnThreeFiles (IsJustOpened R.Reader.remaining R.was_done)
        (λ a b c d e f. AnswersContinues R.Reader.remaining R.Reader.remaining R.Reader.remaining
        W.contents a b c d e f out.old out.new (end_of ending)))
        (λ _. out.new ≡ out.old) }
{
    let [map, old, new] = paths;
    let mut map = open_file(rt, map, Origin::Map)?;
    let mut old = open_file(rt, old, Origin::OldPlan)?;
    let mut new = open_file(rt, new, Origin::Plan)?;
    Ok(continues_command::perform(rt.alloc(), &mut map, &mut old, &mut new, out))
}

fn optimal_on_files<R: ReadFiles + AllocGlobal, W: Write>(
    rt: &R,
    line: &OptimalLine,
    out: &mut Counted<W>,
) -> Result<Ending, Origin>
    ensures { MatchResult result
        (λ ending. OnThreeFiles (IsJustOpened R.Reader.remaining R.was_done)
        (λ a b c d e f. AnswersOptimal R.Reader.remaining R.Reader.remaining R.Reader.remaining
        W.contents line.now.json a b c d e f out.old out.new (end_of ending)))
        (λ _. out.new ≡ out.old) }
{
    let mut map = open_file(rt, &line.map, Origin::Map)?;
    let mut plan = open_file(rt, &line.plan, Origin::Plan)?;
    let mut proof = open_file(rt, &line.proof, Origin::Proof)?;
    Ok(optimal_command::perform(rt.alloc(), &mut map, &mut plan, &mut proof, line.json, out))
}

fn run_on_files<R: ReadFiles + AllocGlobal, W: Write>(
    rt: &R,
    paths: [&str; 3],
    complete: bool,
    out: &mut Counted<W>,
) -> Result<Ending, Origin>
    ensures { MatchResult result
        (λ ending. OnThreeFiles (IsJustOpened R.Reader.remaining R.was_done)
        (λ a b c d e f. AnswersRun R.Reader.remaining R.Reader.remaining R.Reader.remaining
        W.contents a b c d e f complete out.old out.new (end_of ending)))
        (λ _. out.new ≡ out.old) }
{
    let [map, plan, events] = paths;
    let mut map = open_file(rt, map, Origin::Map)?;
    let mut plan = open_file(rt, plan, Origin::Plan)?;
    let mut events = open_file(rt, events, Origin::Events)?;
    Ok(run_command::perform(rt.alloc(), &mut map, &mut plan, &mut events, complete, out))
}

/// The tape is opened once the plan is read.
fn agent_on_files<R: AgentFiles + AllocGlobal, I: Read, W: Write>(
    rt: &R,
    paths: [&str; 2],
    seat: Seat<'_>,
    input: &mut Counted<I>,
    out: &mut Counted<W>,
) -> Result<Ending, Origin>
    ensures { MatchResult result
        (λ ending. OnTwoFiles (IsJustOpened R.Reader.remaining R.was_done)
        (λ a b c d. AnswersAgent R.Tape.remaining R.was_done R.Reader.remaining R.Reader.remaining
        I.remaining W.contents seat.entry.claim seat.entry.id a b c d input.old input.new out.old
        out.new (end_of ending)))
        (λ _. (input.new ≡ input.old) × (out.new ≡ out.old)) }
{
    let [map, plan] = paths;
    let mut map = open_file(rt, map, Origin::Map)?;
    let mut plan = open_file(rt, plan, Origin::Plan)?;
    Ok(agent_command::perform(rt, &mut map, &mut plan, seat, input, out))
}

/// No file is written. That the tape has none is a fault of its own.
fn tape_on_files<R: ReadFiles + AllocGlobal, W: Write>(
    rt: &R,
    paths: [&str; 3],
    id: u16,
    out: &mut Counted<W>,
) -> Result<Ending, Origin>
    ensures { MatchResult result
        (λ ending. OnThreeFiles (IsJustOpened R.Reader.remaining R.was_done)
        (λ a b c d e f. AnswersTape R.Reader.remaining R.Reader.remaining R.Reader.remaining
        W.contents id a b c d e f out.old out.new (end_of ending))
        ⊎ (EndsWithoutTape (end_of ending) × (out.new ≡ out.old))) (λ _. out.new ≡ out.old) }
{
    let [map, plan, tape] = paths;
    let mut map = open_file(rt, map, Origin::Map)?;
    let mut plan = open_file(rt, plan, Origin::Plan)?;
    match rt.open_to_read(tape) {
        Ok(file) => {
            let mut tape = Counted::new(file);
            Ok(tape_command::perform(rt.alloc(), &mut map, &mut plan, id, &mut tape, out))
        }
        Err(AgentFault::NoTape) => Ok(tape_command::without_tape()),
        Err(_) => Err(Origin::Tape),
    }
}

/// The tapes are opened once the plan is read.
fn fleet_on_files<R: ReadFiles + AllocGlobal, W: Write>(
    rt: &R,
    line: &FleetLine,
    out: &mut Counted<W>,
) -> Result<Ending, Origin>
    ensures { MatchResult result
        (λ ending. OnTwoFiles (IsJustOpened R.Reader.remaining R.was_done)
        (λ a b c d. AnswersFleet R.Reader.remaining R.Reader.remaining R.was_done W.contents
        line.now.query a b c d out.old out.new (end_of ending)))
        (λ _. out.new ≡ out.old) }
{
    let mut map = open_file(rt, &line.map, Origin::Map)?;
    let mut plan = open_file(rt, &line.plan, Origin::Plan)?;
    let tapes = &line.tapes;
    match line.query {
        FleetQuery::Status { json } => {
            let ending = status_command::perform(rt, &mut map, &mut plan, tapes, json, out);
            Ok(ending)
        }
        FleetQuery::Lost { agent } => {
            let ending = lost_command::perform(rt, &mut map, &mut plan, tapes, agent, out);
            Ok(ending)
        }
        FleetQuery::Handover => {
            let ending = handover_command::perform(rt, &mut map, &mut plan, tapes, out);
            Ok(ending)
        }
        FleetQuery::Anew { number, without } => {
            let new = NewPlan { number, without };
            let ending = anew_command::perform(rt, &mut map, &mut plan, tapes, new, out);
            Ok(ending)
        }
    }
}

/// The files that a command names, up to three, in the order in which it opens them. Those of a
/// fleet that have tapes are as many as its plan has agents.
pub(crate) fn files_of(
    line: &Line,
) -> (NamedFile<'_>, Option<NamedFile<'_>>, Option<NamedFile<'_>>) {
    use Origin::{Events, Map, OldPlan, Plan, Proof, Scenario, Tape};
    match line {
        Line::Text { file, query } => (file_of(origin_of(*query), file), None, None),
        Line::Row { map, scen, .. } => (file_of(Map, map), Some(file_of(Scenario, scen)), None),
        Line::Rows(rows) => (
            file_of(Map, &rows.map),
            Some(file_of(Scenario, &rows.scen)),
            None,
        ),
        Line::Check(check) => (
            file_of(Map, &check.map),
            Some(file_of(Plan, &check.plan)),
            check.scen.as_ref().map(|scen| file_of(Scenario, scen)),
        ),
        Line::Query { map, plan, .. } => (file_of(Map, map), Some(file_of(Plan, plan)), None),
        Line::Continues { map, old, new } => (
            file_of(Map, map),
            Some(file_of(OldPlan, old)),
            Some(file_of(Plan, new)),
        ),
        Line::Optimal(optimal) => (
            file_of(Map, &optimal.map),
            Some(file_of(Plan, &optimal.plan)),
            Some(file_of(Proof, &optimal.proof)),
        ),
        Line::Run {
            map,
            plan,
            events,
            ..
        } => (
            file_of(Map, map),
            Some(file_of(Plan, plan)),
            Some(file_of(Events, events)),
        ),
        Line::Agent {
            map,
            plan,
            tape,
            ..
        }
        | Line::Tape {
            map,
            plan,
            tape,
            ..
        } => (
            file_of(Map, map),
            Some(file_of(Plan, plan)),
            Some(file_of(Tape, tape)),
        ),
        Line::Fleet(FleetLine { map, plan, .. }) => {
            (file_of(Map, map), Some(file_of(Plan, plan)), None)
        }
    }
}

pub(crate) fn file_of(origin: Origin, path: &str) -> NamedFile<'_> {
    NamedFile { origin, path }
}
