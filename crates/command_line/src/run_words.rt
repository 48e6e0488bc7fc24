//! The commands of runs, agents and fleets: what help says of each, and how its words are read.
ghost use Rattle.std.specs.Prelude.{◌≡◌, codes, map, IfErr, IfOk, MatchOption, ⊤};
ghost use Rattle.std.specs.Option.{IfSome};
ghost use Rattle.clap.specs.Words.{found_of, rows_of};
ghost use Rattle.command_line.specs.Words.{HasValues, IsCommand, run_usages};
ghost use Rattle.command_line.specs.Code.Parts.{HasWords, IsOther, IsRefusal};
ghost use Rattle.command_line.specs.Code.Parts.{shape_of_text, shapes_of};

use crate::LineFault;
use crate::help::Word::{Flag, Named, Required};
use crate::help::{self, CommandText, EXPLAIN};
use crate::lines::{FleetLine, Line};
use crate::words::{
    agent_id, has_flag, long_number, optional_number, tape_claim, tapes_word, word,
};
use clap::ArgMatches;
use std::alloc::Global;

/// What is asked of a plan by the tapes of all its agents.
#[derive(Clone, Copy, Debug, PartialEq, Eq)]
pub enum FleetQuery {
    /// Where the agents are, and who keeps whom; `json` asks for each line as JSON.
    Status { json: bool },
    /// In which cells the robot of an agent may be that is lost.
    Lost { agent: u16 },
    /// The plan as far as all is made that is begun.
    Handover,
    /// A plan of its own, with this number, of what isn't begun, perhaps without an agent.
    Anew { number: u32, without: Option<u16> },
}

/// The commands of runs, agents and fleets.
pub(crate) fn run_commands() -> &'static [CommandText<'static>]
    ensures { map shape_of_text result.now ≡ shapes_of run_usages }
{
    RUN_COMMANDS
}

/// Reads the command with this name by the words that it was given, if it is one of these.
pub(crate) fn read_run_command(
    alloc: Global,
    name: &str,
    given: &ArgMatches<'_>,
) -> Option<Result<Line, LineFault>>
    ensures other { MatchOption result (IsOther name.now run_usages) (λ _. ⊤) }
    ensures ok { IfSome result
        (λ r. IfOk r (IsCommand name.now (rows_of (found_of given.now)))) }
    ensures err { IfSome result (λ r. IfErr r (λ e. HasWords name.now (rows_of (found_of given.now))
        → HasValues name.now (rows_of (found_of given.now))
        → e ≡ LineFault.OutOfMemory)) }
    ensures refusal { IfSome result (λ r. IfErr r IsRefusal) }
{
    match name {
        "run" => Some(read_run(alloc, given)),
        "agent" => Some(read_agent(alloc, given)),
        "tape" => Some(read_tape(alloc, given)),
        "status" => Some(read_status(alloc, given)),
        "lost" => Some(read_lost(alloc, given)),
        "handover" => Some(read_handover(alloc, given)),
        "anew" => Some(read_anew(alloc, given)),
        _ => None,
    }
}

/// Reads `run` by the words that it was given.
fn read_run(alloc: Global, given: &ArgMatches<'_>) -> Result<Line, LineFault>
    ensures ok { IfOk result (IsCommand (codes "run") (rows_of (found_of given.now))) }
    ensures err { IfErr result (λ e. HasWords (codes "run") (rows_of (found_of given.now))
        → e ≡ LineFault.OutOfMemory) }
    ensures refusal { IfErr result IsRefusal }
{
    Ok(Line::Run {
        map: word(alloc, given, "map")?,
        plan: word(alloc, given, "plan")?,
        events: word(alloc, given, "events")?,
        complete: has_flag(given, "complete"),
    })
}

/// Reads `agent` by the words that it was given.
fn read_agent(alloc: Global, given: &ArgMatches<'_>) -> Result<Line, LineFault>
    ensures ok { IfOk result (IsCommand (codes "agent") (rows_of (found_of given.now))) }
    ensures err { IfErr result (λ e. HasWords (codes "agent") (rows_of (found_of given.now))
        → HasValues (codes "agent") (rows_of (found_of given.now))
        → e ≡ LineFault.OutOfMemory) }
    ensures refusal { IfErr result IsRefusal }
{
    Ok(Line::Agent {
        map: word(alloc, given, "map")?,
        plan: word(alloc, given, "plan")?,
        id: agent_id(alloc, given, &help::AGENT_ID)?,
        tape: word(alloc, given, "file")?,
        claim: tape_claim(alloc, given)?,
    })
}

/// Reads `tape` by the words that it was given.
fn read_tape(alloc: Global, given: &ArgMatches<'_>) -> Result<Line, LineFault>
    ensures ok { IfOk result (IsCommand (codes "tape") (rows_of (found_of given.now))) }
    ensures err { IfErr result (λ e. HasWords (codes "tape") (rows_of (found_of given.now))
        → HasValues (codes "tape") (rows_of (found_of given.now))
        → e ≡ LineFault.OutOfMemory) }
    ensures refusal { IfErr result IsRefusal }
{
    Ok(Line::Tape {
        map: word(alloc, given, "map")?,
        plan: word(alloc, given, "plan")?,
        id: agent_id(alloc, given, &help::TAPE_ID)?,
        tape: word(alloc, given, "file")?,
    })
}

/// Reads `status` by the words that it was given.
fn read_status(alloc: Global, given: &ArgMatches<'_>) -> Result<Line, LineFault>
    ensures ok { IfOk result (IsCommand (codes "status") (rows_of (found_of given.now))) }
    ensures err { IfErr result (λ e. HasWords (codes "status") (rows_of (found_of given.now))
        → HasValues (codes "status") (rows_of (found_of given.now))
        → e ≡ LineFault.OutOfMemory) }
    ensures refusal { IfErr result IsRefusal }
{
    Ok(Line::Fleet(FleetLine {
        map: word(alloc, given, "map")?,
        plan: word(alloc, given, "plan")?,
        tapes: tapes_word(alloc, given)?,
        query: FleetQuery::Status {
            json: has_flag(given, "json"),
        },
    }))
}

/// Reads `lost` by the words that it was given.
fn read_lost(alloc: Global, given: &ArgMatches<'_>) -> Result<Line, LineFault>
    ensures ok { IfOk result (IsCommand (codes "lost") (rows_of (found_of given.now))) }
    ensures err { IfErr result (λ e. HasWords (codes "lost") (rows_of (found_of given.now))
        → HasValues (codes "lost") (rows_of (found_of given.now))
        → e ≡ LineFault.OutOfMemory) }
    ensures refusal { IfErr result IsRefusal }
{
    Ok(Line::Fleet(FleetLine {
        map: word(alloc, given, "map")?,
        plan: word(alloc, given, "plan")?,
        tapes: tapes_word(alloc, given)?,
        query: FleetQuery::Lost {
            agent: agent_id(alloc, given, &help::LOST_ID)?,
        },
    }))
}

/// Reads `handover` by the words that it was given.
fn read_handover(alloc: Global, given: &ArgMatches<'_>) -> Result<Line, LineFault>
    ensures ok { IfOk result (IsCommand (codes "handover") (rows_of (found_of given.now))) }
    ensures err { IfErr result (λ e. HasWords (codes "handover") (rows_of (found_of given.now))
        → HasValues (codes "handover") (rows_of (found_of given.now))
        → e ≡ LineFault.OutOfMemory) }
    ensures refusal { IfErr result IsRefusal }
{
    Ok(Line::Fleet(FleetLine {
        map: word(alloc, given, "map")?,
        plan: word(alloc, given, "plan")?,
        tapes: tapes_word(alloc, given)?,
        query: FleetQuery::Handover,
    }))
}

/// Reads `anew` by the words that it was given.
fn read_anew(alloc: Global, given: &ArgMatches<'_>) -> Result<Line, LineFault>
    ensures ok { IfOk result (IsCommand (codes "anew") (rows_of (found_of given.now))) }
    ensures err { IfErr result (λ e. HasWords (codes "anew") (rows_of (found_of given.now))
        → HasValues (codes "anew") (rows_of (found_of given.now))
        → e ≡ LineFault.OutOfMemory) }
    ensures refusal { IfErr result IsRefusal }
{
    Ok(Line::Fleet(FleetLine {
        map: word(alloc, given, "map")?,
        plan: word(alloc, given, "plan")?,
        tapes: tapes_word(alloc, given)?,
        query: FleetQuery::Anew {
            number: long_number(alloc, given, "number", &help::NEW_NUMBER)?,
            without: optional_number(alloc, given, "without", help::NO_LEFT_OUT)?,
        },
    }))
}

const RUN_COMMANDS: &[CommandText<'static>] = &[
    CommandText {
        name: "run",
        about: "Checks a plan on a map, and answers the events of a run of it",
        after_help: "\
Standard output is one line for each event, as `moving 2 0`, `arrived 2 0` or
`refused Waits 0 1`. A refusal is a reply like any other.
With --complete these lines follow:
  complete N   with N events, a line each, that bring each agent to the end of
               its path
  blocked N    no events do: rotation N, counted from 0 as `mapf deps` lists
               them, has an unfinished move

Status:
  0  every event has its reply
  1  a text or the plan has a fault: one line on standard error, behind the
     replies to the events before it; or the answer is `blocked`
  2  a bad command line
  3  a file can't be opened (--explain says which, and why), a device failed, or
     memory was refused

Example:
  mapf run examples/plain.map examples/behind.plan examples/behind.events",
        words: &[
            Required("map", "The file of the map"),
            Required("plan", "The file of the plan"),
            Required("events", "The file of the events"),
            Flag("complete", "Writes how the run ends too"),
            EXPLAIN,
        ],
    },
    CommandText {
        name: "agent",
        about: "Checks a plan on a map, and answers for one of its agents",
        after_help: "\
The tape keeps how far the agent has come. No other process may hold it. The
first line of standard output is the state of the agent:
  at X Y done N            it stands in this cell, with N moves finished
  between X Y U V done N   it is moving from the one cell to the other
Then each line of standard input is answered by one line:
  start      moving X Y, or refused and why
  finish     arrived X Y, or refused and why
  say        said HEX: the message for the other agents
  tell       said HEX: the same with all that it has heard of others too
  hear HEX   heard J N: agent J has finished N moves; or refused and why
  may N      may K: the next K moves, of N at the most, are free
  held       the state of the agent, as at first
  any other  refused BadLine

Start a robot once with --tape new, and from then on with --tape kept: then a
tape that was lost is no new one. The plan is kept beside the tape, in a file
of its name with .plan behind it.
  --tape new    refuses a file that has a record
  --tape kept   refuses a file that is not there, that was emptied, or that is
                of another plan, of which none goes on from the other

Status:
  0  the input ended
  1  a text or the plan has a fault, there is no such agent, or the tape is
     refused: one line on standard error
  2  a bad command line
  3  a file can't be opened (--explain says which, and why), a device failed,
     another process holds the tape, memory was refused, or the answer was
     `refused StoreFailed`: start the agent again

Example:
  mapf agent examples/plain.map examples/behind.plan 0 robot0.tape",
        words: &[
            Required("map", "The file of the map"),
            Required("plan", "The file of the plan"),
            Required("id", "The number of the agent, counted from 0"),
            Required(
                "file",
                "The file of the agent's tape, made where there is none",
            ),
            Named("tape", "What the tape has to be: new or kept"),
            EXPLAIN,
        ],
    },
    CommandText {
        name: "tape",
        about: "Checks a plan on a map, and says what the tape of an agent keeps",
        after_help: "\
Standard output is two lines. The first is the state of the agent:
  at X Y done N            it stands in this cell, with N moves finished
  between X Y U V done N   it is moving from the one cell to the other
The second is of the file:
  records R torn T         R whole records, and T bytes behind them that count
                           as nothing
Nothing is written to the tape, and it may be read beside the agent that holds
it.

Status:
  0  the lines are written
  1  a text or the plan has a fault, there is no such agent, there is no such
     tape, or it is refused: one line on standard error
  2  a bad command line
  3  a file can't be opened (--explain says which, and why), a device failed, or
     memory was refused

Example:
  mapf tape examples/plain.map examples/behind.plan 0 robot0.tape",
        words: &[
            Required("map", "The file of the map"),
            Required("plan", "The file of the plan"),
            Required("id", "The number of the agent, counted from 0"),
            Required("file", "The file of the agent's tape"),
            EXPLAIN,
        ],
    },
    CommandText {
        name: "status",
        about: "Says what the tapes of a plan's agents have, and who keeps whom",
        after_help: "\
The tape of each agent is in the file that has the name TAPES with its number in
place of each %. Standard output is a line for each agent, by what its tape has:
  I at X Y done K of M ..            it stands in this cell, with K of M moves
                                     finished
  I between X Y U V done K of M ..   it is moving from the one cell to the other
  I NoTape                           nothing is known of it: why, as for `mapf
                                     tape`
Behind an agent that stands is what keeps it:
  arrived     it has made all its moves
  ready       nobody: it may go once it has heard so
  waits J C   agent J, until that one has finished C moves
Then there is a line for who waits for nobody, and keeps others:
  root I keeps N       N agents wait for agent I, directly or not
  rotation R keeps N   N agents wait in rotation R, as `mapf deps` numbers them,
                       or for it: they wait for ever
Then there is a line for what nobody may drive on with:
  NotOneRun I J C      agent I has begun a move that waits until agent J has
                       finished C moves, and by its tape J has fewer
  NotOneRun R          an agent has begun its move in rotation R
  PlansPart I J T      the plans beside the tapes of I and J differ from time T
                       on, and neither goes on from the other
  beside I FAULT       the plan beside the tape of I can't be read
Nothing is written to a tape, and all may be read beside the agents. Where they
move meanwhile, only a NotOneRun that comes again is one.
With --json each line is an object, as
  {\"agent\":0,\"at\":[3,2],\"done\":4,\"of\":9,\"state\":\"waits\",\"for\":7,\"until\":2}

Status:
  0  the lines are written
  1  a text or the plan has a fault: one line on standard error; or some line
     says why a tape isn't taken, NotOneRun, PlansPart or beside
  2  a bad command line
  3  a file can't be opened (--explain says which, and why), a device failed, or
     memory was refused

Example:
  mapf status examples/plain.map examples/behind.plan robot%.tape",
        words: &[
            Required("map", "The file of the map"),
            Required("plan", "The file of the plan"),
            Required(
                "tapes",
                "The files of the tapes, with % for an agent's number",
            ),
            Flag("json", "Writes each line as JSON"),
            EXPLAIN,
        ],
    },
    CommandText {
        name: "lost",
        about: "Says in which cells a robot may be that is lost",
        after_help: "\
Ask when no agent of the plan runs any more. Standard output is a line for each
place on the path of agent ID in which its robot may be, in the order of the
path:
  at X Y done K   it may be in this cell, to which its first K moves lead
The first place is that of its tape, or its start where the tape is lost. The
others are as far as its drive can have been told to go, by what the tapes of
the others have. The tapes are read as by `mapf status`; each may have a fault.

Status:
  0  the lines are written
  1  a text or the plan has a fault, there is no such agent, or the tapes are
     not those of one run (NotOneRun): `mapf status` says more
  2  a bad command line
  3  a file can't be opened (--explain says which, and why), a device failed, or
     memory was refused

Example:
  mapf lost examples/plain.map examples/behind.plan robot%.tape 1",
        words: &[
            Required("map", "The file of the map"),
            Required("plan", "The file of the plan"),
            Required(
                "tapes",
                "The files of the tapes, with % for an agent's number",
            ),
            Required("id", "The number of the agent, counted from 0"),
            EXPLAIN,
        ],
    },
    CommandText {
        name: "handover",
        about: "Writes a plan as far as its agents have begun it by their tapes",
        after_help: "\
Standard output is the plan, cut as by `mapf cut` at the least time by which
every move has ended that some tape has as begun. So each agent may be started
by it with `--tape kept`, and then any plan that goes on from it may follow. The
tapes are read as by `mapf status`.

Status:
  0  the plan is written
  1  a text or the plan has a fault, or a tape, as `mapf: BadTape 3`, or the
     tapes are not those of one run (NotOneRun): `mapf status` says more
  2  a bad command line
  3  a file can't be opened (--explain says which, and why), a device failed, or
     memory was refused

Example:
  mapf handover examples/plain.map examples/behind.plan robot%.tape",
        words: &[
            Required("map", "The file of the map"),
            Required("plan", "The file of the plan"),
            Required(
                "tapes",
                "The files of the tapes, with % for an agent's number",
            ),
            EXPLAIN,
        ],
    },
    CommandText {
        name: "anew",
        about: "Writes what is left of a plan anew, perhaps without an agent",
        after_help: "\
Standard output is a plan with another number. Each agent starts in the cell to
which the moves lead that its tape has as begun, and makes those that are left,
each in its step; what all wait at the beginning is left out. With --without one
agent isn't in it: those behind it have numbers less by one, and its tape isn't
needed. The tapes are read as by `mapf status`, when no agent runs any more and
each stands where the new plan begins.

Status:
  0  the plan is written: it is valid
  1  a text or the plan has a fault, there is no such agent, the number is that
     of the plan, or a tape has a fault, as `mapf: BadTape 3`; or the tapes are
     not those of one run, as where one is an older copy (`NotOneRun`)
  2  a bad command line
  3  a file can't be opened (--explain says which, and why), a device failed, or
     memory was refused

Example:
  mapf anew examples/plain.map examples/behind.plan robot%.tape 10 --without 1",
        words: &[
            Required("map", "The file of the map"),
            Required("plan", "The file of the plan"),
            Required(
                "tapes",
                "The files of the tapes, with % for an agent's number",
            ),
            Required("number", "The number of the new plan"),
            Named("without", "The number of an agent that is left out"),
            EXPLAIN,
        ],
    },
];
