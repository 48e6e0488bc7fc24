//! The commands over plans: what help says of each, and how its words are read.
ghost use Rattle.std.specs.Prelude.{◌≡◌, codes, map, IfErr, IfOk, IsTrue};
ghost use Rattle.std.specs.Prelude.{MatchOption, is_some, ⊤};
ghost use Rattle.std.specs.Option.{IfSome};
ghost use Rattle.clap.specs.Words.{Text, first_of, found_of, rows_of};
ghost use Rattle.command_line.specs.Words.{HasValues, IsCommand, IsPlanQuery, plan_usages};
ghost use Rattle.command_line.specs.Code.Parts.{HasWords, IsOther, IsRefusal};
ghost use Rattle.command_line.specs.Code.Parts.{shape_of_text, shapes_of};

use crate::LineFault;
use crate::help::Word::{Cell as CellOption, Flag, Named, Required};
use crate::help::{self, CommandText, EXPLAIN};
use crate::lines::{CheckLine, Line, OptimalLine};
use crate::words::{
    has_flag, long_number, optional_cell, optional_long_number, optional_number, optional_word,
    word,
};
use clap::ArgMatches;
use grid::Cell;
use std::alloc::Global;

/// What is asked of a plan on a map, for which no other file is read.
#[derive(Clone, Copy, Debug, PartialEq, Eq)]
pub enum PlanQuery {
    /// Which moves wait for which, or, of a cell, who comes into it.
    Deps { cell: Option<Cell> },
    /// Where the agents are at each time, or where one of them is.
    Path { agent: Option<u16> },
    /// What it costs, and at least, and perhaps each of its agents; `json` asks for the answer as
    /// JSON.
    Bound { agents: bool, json: bool },
    /// The plan without what its agents do from a time on.
    Cut { time: u32 },
}

/// The commands over plans.
pub(crate) fn plan_commands() -> &'static [CommandText<'static>]
    ensures { map shape_of_text result.now ≡ shapes_of plan_usages }
{
    PLAN_COMMANDS
}

/// Reads the command with this name by the words that it was given, if it is one of these.
pub(crate) fn read_plan_command(
    alloc: Global,
    name: &str,
    given: &ArgMatches<'_>,
) -> Option<Result<Line, LineFault>>
    ensures other { MatchOption result (IsOther name.now plan_usages) (λ _. ⊤) }
    ensures ok { IfSome result
        (λ r. IfOk r (IsCommand name.now (rows_of (found_of given.now)))) }
    ensures err { IfSome result (λ r. IfErr r (λ e. HasWords name.now (rows_of (found_of given.now))
        → HasValues name.now (rows_of (found_of given.now))
        → e ≡ LineFault.OutOfMemory)) }
    ensures refusal { IfSome result (λ r. IfErr r IsRefusal) }
{
    match name {
        "check" => Some(read_check(alloc, given)),
        "bound" => Some(read_query(
            alloc,
            given,
            PlanQuery::Bound {
                agents: has_flag(given, "agents"),
                json: has_flag(given, "json"),
            },
        )),
        "deps" => Some(read_deps(alloc, given)),
        "path" => Some(read_path(alloc, given)),
        "cut" => Some(read_cut(alloc, given)),
        "continues" => Some(read_continues(alloc, given)),
        "optimal" => Some(read_optimal(alloc, given)),
        _ => None,
    }
}

/// Reads `check` by the words that it was given.
fn read_check(alloc: Global, given: &ArgMatches<'_>) -> Result<Line, LineFault>
    ensures ok { IfOk result (IsCommand (codes "check") (rows_of (found_of given.now))) }
    ensures err { IfErr result (λ e. HasWords (codes "check") (rows_of (found_of given.now))
        → HasValues (codes "check") (rows_of (found_of given.now))
        → e ≡ LineFault.OutOfMemory) }
    ensures refusal { IfErr result IsRefusal }
{
    Ok(Line::Check(CheckLine {
        map: word(alloc, given, "map")?,
        plan: word(alloc, given, "plan")?,
        scen: optional_word(alloc, given, "scen")?,
        agents: optional_number(alloc, given, "agents", help::NO_AGENT_COUNT)?,
        all: optional_long_number(alloc, given, "all", 1, help::NO_FAULT_COUNT)?,
        bound: has_flag(given, "bound"),
        no_rotation: has_flag(given, "no-rotation"),
        json: has_flag(given, "json"),
    }))
}

/// Reads a query on a plan on a map by the words that it was given.
fn read_query(alloc: Global, given: &ArgMatches<'_>, query: PlanQuery) -> Result<Line, LineFault>
    ensures ok { IfOk result (λ line. (name : Text)
        → IsPlanQuery name (rows_of (found_of given.now)) query
        → IsCommand name (rows_of (found_of given.now)) line) }
    ensures err { IfErr result
        (λ e. IsTrue (is_some (first_of (codes "map") (rows_of (found_of given.now))))
        → IsTrue (is_some (first_of (codes "plan") (rows_of (found_of given.now))))
        → e ≡ LineFault.OutOfMemory) }
    ensures refusal { IfErr result IsRefusal }
{
    Ok(Line::Query {
        map: word(alloc, given, "map")?,
        plan: word(alloc, given, "plan")?,
        query,
    })
}

/// Reads `deps` by the words that it was given.
fn read_deps(alloc: Global, given: &ArgMatches<'_>) -> Result<Line, LineFault>
    ensures ok { IfOk result (IsCommand (codes "deps") (rows_of (found_of given.now))) }
    ensures err { IfErr result (λ e. HasWords (codes "deps") (rows_of (found_of given.now))
        → HasValues (codes "deps") (rows_of (found_of given.now))
        → e ≡ LineFault.OutOfMemory) }
    ensures refusal { IfErr result IsRefusal }
{
    let cell = optional_cell(alloc, given, "cell", help::NO_CELL)?;
    read_query(alloc, given, PlanQuery::Deps { cell })
}

/// Reads `path` by the words that it was given.
fn read_path(alloc: Global, given: &ArgMatches<'_>) -> Result<Line, LineFault>
    ensures ok { IfOk result (IsCommand (codes "path") (rows_of (found_of given.now))) }
    ensures err { IfErr result (λ e. HasWords (codes "path") (rows_of (found_of given.now))
        → HasValues (codes "path") (rows_of (found_of given.now))
        → e ≡ LineFault.OutOfMemory) }
    ensures refusal { IfErr result IsRefusal }
{
    let agent = optional_number(alloc, given, "agent", help::NO_AGENT_NUMBER)?;
    read_query(alloc, given, PlanQuery::Path { agent })
}

/// Reads `cut` by the words that it was given.
fn read_cut(alloc: Global, given: &ArgMatches<'_>) -> Result<Line, LineFault>
    ensures ok { IfOk result (IsCommand (codes "cut") (rows_of (found_of given.now))) }
    ensures err { IfErr result (λ e. HasWords (codes "cut") (rows_of (found_of given.now))
        → HasValues (codes "cut") (rows_of (found_of given.now))
        → e ≡ LineFault.OutOfMemory) }
    ensures refusal { IfErr result IsRefusal }
{
    let time = long_number(alloc, given, "time", &help::CUT_TIME)?;
    read_query(alloc, given, PlanQuery::Cut { time })
}

/// Reads `continues` by the words that it was given.
fn read_continues(alloc: Global, given: &ArgMatches<'_>) -> Result<Line, LineFault>
    ensures ok { IfOk result (IsCommand (codes "continues") (rows_of (found_of given.now))) }
    ensures err { IfErr result (λ e. HasWords (codes "continues") (rows_of (found_of given.now))
        → e ≡ LineFault.OutOfMemory) }
    ensures refusal { IfErr result IsRefusal }
{
    Ok(Line::Continues {
        map: word(alloc, given, "map")?,
        old: word(alloc, given, "old")?,
        new: word(alloc, given, "new")?,
    })
}

/// Reads `optimal` by the words that it was given.
fn read_optimal(alloc: Global, given: &ArgMatches<'_>) -> Result<Line, LineFault>
    ensures ok { IfOk result (IsCommand (codes "optimal") (rows_of (found_of given.now))) }
    ensures err { IfErr result (λ e. HasWords (codes "optimal") (rows_of (found_of given.now))
        → e ≡ LineFault.OutOfMemory) }
    ensures refusal { IfErr result IsRefusal }
{
    Ok(Line::Optimal(OptimalLine {
        map: word(alloc, given, "map")?,
        plan: word(alloc, given, "plan")?,
        proof: word(alloc, given, "proof")?,
        json: has_flag(given, "json"),
    }))
}

const PLAN_COMMANDS: &[CommandText<'static>] = &[
    CommandText {
        name: "check",
        about: "Checks a plan on a map, and perhaps that it solves a scenario",
        after_help: "\
Standard output is one line:
  accepted agents K cost C makespan M   the plan is valid
  rejected FAULT                        it isn't, and this is its least fault
With --scen the plan must also solve the first rows of the scenario, as many as
it has agents. With --agents it must have that many. With --no-rotation a plan
with nothing else against it must have no rotation, since one with a rotation
can't be run; the fault is then `Rotation S I J ..`, as `mapf deps` lists it.
With --bound the line says beside what such plans cost at least:
  accepted agents K cost C of B makespan M of D
With --all it is a line for each fault, up to 1000, or N with --all=N, as they
come: by time, then kind, then agents; and then how many lines and agents:
  faults F agents A                     these are all
  faults F agents A more                there are more

Status:
  0  the answer is `accepted`
  1  the answer is `rejected`, or a text has a fault
  2  a bad command line
  3  a file can't be opened (--explain says which, and why), a device failed, or
     memory was refused

Example:
  mapf check examples/corner.map examples/corner.plan --scen examples/corner.scen",
        words: &[
            Required("map", "The file of the map"),
            Required("plan", "The file of the plan"),
            Named("scen", "The file of a scenario that the plan is to solve"),
            Named("agents", "How many agents the plan is to have"),
            Named("all", "Lists all faults, up to 1000 or to so many behind ="),
            Flag("bound", "Tells what such plans cost at least"),
            Flag("no-rotation", "Rejects a plan with a rotation"),
            Flag("json", "Writes the answer as JSON"),
            EXPLAIN,
        ],
    },
    CommandText {
        name: "bound",
        about: "Checks a plan on a map, and says what such plans cost at least",
        after_help: "\
Standard output is one line. C is the sum of costs, and B what it is at least:
the sum of the least straight steps that each agent needs by itself from its
start to its last cell. M is the makespan, and D the greatest of these:
  cost C of B makespan M of D
With --agents a line for each agent comes before it:
  agent I cost C of D

Status:
  0  the line is written
  1  a text or the plan has a fault: one line on standard error
  2  a bad command line
  3  a file can't be opened (--explain says which, and why), a device failed, or
     memory was refused

Example:
  mapf bound examples/corner.map examples/corner.plan",
        words: &[
            Required("map", "The file of the map"),
            Required("plan", "The file of the plan"),
            Flag("agents", "Writes a line for each agent first"),
            Flag("json", "Writes the answer as JSON"),
            EXPLAIN,
        ],
    },
    CommandText {
        name: "deps",
        about: "Checks a plan on a map, and says which move waits for which",
        after_help: "\
Standard output:
  agents A moves M needs N rotations R   how many there are
  need I K J C          move K of agent I waits until agent J has finished C
                        moves; a line for each move that waits
  rotation S I J ..     in step S these agents turn round in a circle; a line
                        for each such circle
With --cell instead a line for each visit to the cell, as their times rise:
  visit I K T           agent I comes into it at time T, as cell K of its path

Status:
  0  the lines are written
  1  a text or the plan has a fault: one line on standard error
  2  a bad command line
  3  a file can't be opened (--explain says which, and why), a device failed, or
     memory was refused

Example:
  mapf deps examples/turn.map examples/turn.plan",
        words: &[
            Required("map", "The file of the map"),
            Required("plan", "The file of the plan"),
            CellOption("cell", "Writes who comes into this cell, and when"),
            EXPLAIN,
        ],
    },
    CommandText {
        name: "path",
        about: "Walks a plan on a map, and says where its agents are at each time",
        after_help: "\
Standard output is a line for each time, from 0 to the most acts of an agent:
  T X Y X Y ..   at time T agent 0 is in the first cell, agent 1 in the second,
                 and so on; an agent that has no more acts stays where it is
Agents may meet: `mapf check` says where they do. With --agent it is one agent
alone, up to its own last act.

Status:
  0  the lines are written
  1  a text has a fault, an agent has a bad start or a bad move, or there is no
     such agent: one line on standard error, as `mapf: BadMove 0 3`
  2  a bad command line
  3  a file can't be opened (--explain says which, and why), a device failed, or
     memory was refused

Example:
  mapf path examples/plain.map examples/behind.plan",
        words: &[
            Required("map", "The file of the map"),
            Required("plan", "The file of the plan"),
            Named("agent", "The number of the one agent to write, from 0"),
            EXPLAIN,
        ],
    },
    CommandText {
        name: "cut",
        about: "Checks a plan on a map, and writes it without acts from a time on",
        after_help: "\
Standard output is the canonical text of the plan, in which each agent has its
first T acts, or all where it has no more. The plan goes on from what is
written, which is a valid plan too.

Status:
  0  the text is written
  1  a text or the plan has a fault: one line on standard error
  2  a bad command line
  3  a file can't be opened (--explain says which, and why), a device failed, or
     memory was refused

Example:
  mapf cut examples/plain.map examples/behind.plan 1",
        words: &[
            Required("map", "The file of the map"),
            Required("plan", "The file of the plan"),
            Required("time", "The time from which on acts are left out"),
            EXPLAIN,
        ],
    },
    CommandText {
        name: "continues",
        about: "Says whether a plan on a map goes on from another, and what it adds",
        after_help: "\
The new plan goes on from the old one where both have the same number and as
many agents, and each agent is in the same cell by both at each time up to T,
the most acts of an agent of the old plan. Then standard output is one line:
  continues from T, adds M moves   M is how many moves the new plan has more

Status:
  0  the line is written
  1  a text or a plan has a fault, or the new plan doesn't go on from the old
     one: one line on standard error, as `mapf: Departs 0 5`
  2  a bad command line
  3  a file can't be opened (--explain says which, and why), a device failed, or
     memory was refused

Example:
  mapf continues examples/plain.map examples/behind.plan examples/onward.plan",
        words: &[
            Required("map", "The file of the map"),
            Required("old", "The file of the plan that is gone on from"),
            Required("new", "The file of the plan that goes on"),
            EXPLAIN,
        ],
    },
    CommandText {
        name: "optimal",
        about: "Says whether a proof shows that no plan costs less than a plan",
        after_help: "\
The proof shows of all valid plans on the map with as many agents, each with the
same start and the same last cell, that their sum of costs, or their makespan,
is no less than its bound. C is what the plan costs, and N how many nodes the
tree of the proof has. Standard output is one line:
  optimal cost C nodes N   the bound is C: no such plan costs less
  bound B cost C nodes N   the bound is B, which is less
  refused FAULT            the proof proves nothing; this is its first fault:
                           it names an agent or a cell that isn't there, or a
                           leaf doesn't come to the bound
For the makespan it says `makespan` in place of `cost`.

Status:
  0  the answer is `optimal` or `bound`
  1  the answer is `refused`, or a text or the plan has a fault: one line on
     standard error
  2  a bad command line
  3  a file can't be opened (--explain says which, and why), a device failed, or
     memory was refused

Example:
  mapf optimal examples/corner.map examples/corner.plan examples/corner.proof",
        words: &[
            Required("map", "The file of the map"),
            Required("plan", "The file of the plan"),
            Required("proof", "The file of the proof"),
            Flag("json", "Writes the answer as JSON"),
            EXPLAIN,
        ],
    },
];
