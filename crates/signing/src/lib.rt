//! Messages that are signed: what is sent of one, and which of those that come are heard.
#![tactic(auto)]

mod counter;
mod hmac;
pub mod laws;
mod letter;
mod sealer;
mod tag;
mod verifier;

pub use counter::{CountFailed, CountStore, Counter};
pub use hmac::tag_of;
pub use letter::{Head, seal};
pub use sealer::{SealFault, Sealer};
pub use verifier::{Dropped, Verifier};
