//! What is asked of a plan.

/// What is asked of a plan beside that it is valid, and of the answer.
#[derive(Clone, Copy, Debug, PartialEq, Eq)]
pub struct CheckTerms {
    /// How many agents there are to be.
    pub due: Option<u16>,
    /// All that is against the plan is listed, so much of it at the most.
    pub all: Option<u32>,
    /// What such plans cost at least is told too.
    pub bound: bool,
    /// A rotation is against the plan.
    pub no_rotation: bool,
    /// The answer is JSON.
    pub json: bool,
}
