//! The program `mapf` over its words. Its command line and its commands stand in crates below.
#![tactic(auto)]

mod low_leaf;
mod on_files;
mod program;
mod unperformed;

pub use agent_commands::{AgentFiles, ReadFiles, Seat, agent_cmd, tape_cmd};
pub use check_commands::{
    BoundForm, CheckTerms, Verdict, bound_cmd, check_cmd, check_fit_cmd, verdict_json,
};
pub use command_line::{
    Asked, CheckLine, FleetLine, FleetQuery, Line, LineFault, OptimalLine, PlanQuery, RowsLine,
    TextQuery, line,
};
pub use ending::{Ending, Status, conclude};
pub use explain::Style;
pub use fleet_commands::{NewPlan, anew_cmd, handover_cmd, lost_cmd, status_cmd};
pub use plan_commands::{continues_cmd, cut_cmd, deps_cell_cmd, deps_cmd, path_cmd};
pub use program::{Screen, run};
pub use proof_commands::optimal_cmd;
pub use robot::{TalkFault, Talker, talk};
pub use run_commands::run_cmd;
pub use tape_claim::{LockFile, TapeClaim};
pub use text_commands::{RowsAsked, block_cmd, map_cmd, row_cmd, rows_cmd, scen_cmd};
pub use unperformed::refuse;
