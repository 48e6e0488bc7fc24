//! The value of each command.
use crate::plan_words::PlanQuery;
use crate::run_words::FleetQuery;
use crate::text_words::TextQuery;
use tape_claim::TapeClaim;

/// A command with what its words say.
#[derive(Debug, Drop, PartialEq, Eq)]
pub enum Line {
    /// Answers a query on a map or a scenario.
    Text {
        file: String,
        query: TextQuery,
    },
    /// Judges the listed length of a scenario's row, counted from 0, on a map.
    Row {
        map: String,
        scen: String,
        row: u32,
    },
    /// Judges rows of a scenario on a map.
    Rows(RowsLine),
    /// Checks a plan on a map.
    Check(CheckLine),
    /// Answers a query on a plan on a map.
    Query {
        map: String,
        plan: String,
        query: PlanQuery,
    },
    /// Says whether a plan on a map goes on from another.
    Continues {
        map: String,
        old: String,
        new: String,
    },
    /// Says whether a proof shows that a plan on a map is optimal.
    Optimal(OptimalLine),
    /// Runs a plan on the events of a text; `complete` asks for how the run ends too.
    Run {
        map: String,
        plan: String,
        events: String,
        complete: bool,
    },
    /// Answers for one agent of a plan, by its tape, of which something may be claimed.
    Agent {
        map: String,
        plan: String,
        id: u16,
        tape: String,
        claim: TapeClaim,
    },
    /// Says what the tape of an agent of a plan keeps.
    Tape {
        map: String,
        plan: String,
        id: u16,
        tape: String,
    },
    /// Answers a query on a plan by the tapes of all its agents.
    Fleet(FleetLine),
}

/// The rows from one up to before another; `straight` asks for the least numbers of straight steps,
/// and `progress` for how far that has come.
#[derive(Debug, Drop, PartialEq, Eq)]
pub struct RowsLine {
    pub map: String,
    pub scen: String,
    pub from: Option<u32>,
    pub to: Option<u32>,
    pub straight: bool,
    pub progress: bool,
}

/// Perhaps the plan has to solve the first rows of a scenario, to have so many agents, or no
/// rotation; `all` asks for its faults, up to so many,
/// `bound` for what such plans cost at least, and `json` for the answer as JSON.
#[derive(Debug, Drop, PartialEq, Eq)]
pub struct CheckLine {
    pub map: String,
    pub plan: String,
    pub scen: Option<String>,
    pub agents: Option<u16>,
    pub all: Option<u32>,
    pub bound: bool,
    pub no_rotation: bool,
    pub json: bool,
}

/// `json` asks for the answer as JSON.
#[derive(Debug, Drop, PartialEq, Eq)]
pub struct OptimalLine {
    pub map: String,
    pub plan: String,
    pub proof: String,
    pub json: bool,
}

/// The name of the files of the tapes has `%` for the number of the agent.
#[derive(Debug, Drop, PartialEq, Eq)]
pub struct FleetLine {
    pub map: String,
    pub plan: String,
    pub tapes: String,
    pub query: FleetQuery,
}
