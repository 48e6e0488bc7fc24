//! What callers use of plans: their text, the checker, what plans cost, and which rows of a
//! scenario they solve. All of it stands in crates below and is passed on.
#![tactic(auto)]

pub use checker::{
    BLOCK, Cells, CheckedPlan, Rejected, Stretch, bad_start, check, may_stray, moved, next_cell,
};
pub use fitting::{FitFault, fits};
pub use model::{Act, PlanFault};
pub use plan_text::{Plan, PlanTextFault, PushFault, read_plan, write_plan};
