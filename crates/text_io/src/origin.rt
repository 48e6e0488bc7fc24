//! What a fault is of.

/// What a fault is of: a file that a command names, a stream, or the command itself. Explanations
/// go by it, and no answer does.
#[derive(Clone, Copy, Debug, PartialEq, Eq)]
pub enum Origin {
    /// What was asked for, or the machine: no file has the fault.
    Command,
    Map,
    Scenario,
    Plan,
    /// The plan from which another is to go on.
    OldPlan,
    Events,
    Proof,
    Tape,
    /// The plan that is kept beside a tape.
    KeptPlan,
    /// The standard input of a dialogue.
    Input,
    Output,
}
