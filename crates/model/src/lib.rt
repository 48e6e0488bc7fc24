//! What a plan, a dependency, a run and a safe run are: data types, definitions and laws, and no
//! engine.
#![tactic(auto)]

mod act;
mod entry;
mod event;
mod held;
pub mod laws;
mod msg_fault;
mod plan_fault;
mod reply;
mod version;
mod visit;
mod why;

pub use act::Act;
pub use entry::Entry;
pub use event::Event;
pub use held::Held;
pub use msg_fault::MsgFault;
pub use plan_fault::PlanFault;
pub use reply::Reply;
pub use version::Version;
pub use visit::{Rotation, Visit};
pub use why::Why;
