//! What a proof shows of a plan, and its line.
ghost use Rattle.std.specs.Prelude.{◌≡◌, string_bytes, IfOk};
ghost use Rattle.text_io.specs.FaultWords.{words_text};
ghost use Rattle.proof_text.specs.FaultWords.{proof_fault_words};
ghost use Rattle.proof_commands.specs.Code.Showing.{shown_line};
ghost use Rattle.proof_commands.specs.ShownText.{claim_json, claim_words};
ghost use Rattle.proof_commands.specs.ShownText.{objective_word, refused_line};

use optimality::Objective;
use proof_text::ProofFault;
use std::alloc::{AllocError, Global};

/// What a proof shows of a plan.
#[derive(Clone, Copy)]
pub(crate) enum Shown {
    /// It costs so much, and a tree of so many nodes shows that such plans cost no less than the
    /// bound.
    Bounded {
        objective: Objective,
        value: u64,
        bound: u32,
        nodes: u32,
    },
    /// Nothing, for this fault.
    Refused(ProofFault),
}

/// Its line, in words or as JSON.
pub(crate) fn shown_line(alloc: Global, shown: Shown, json: bool) -> Result<String, AllocError>
    ensures { IfOk result (λ line. string_bytes line ≡ shown_line json shown) }
{
    match shown {
        Shown::Bounded {
            objective,
            value,
            bound,
            nodes,
        } => {
            if json {
                claim_json(alloc, objective, value, bound, nodes)
            } else {
                claim_words(alloc, objective, value, bound, nodes)
            }
        }
        Shown::Refused(fault) => refused_line(alloc, fault, json),
    }
}

fn claim_words(
    alloc: Global,
    objective: Objective,
    value: u64,
    bound: u32,
    nodes: u32,
) -> Result<String, AllocError>
    ensures { IfOk result (λ line. string_bytes line ≡ claim_words objective value bound nodes) }
{
    let word = objective_word(objective);
    if value == u64::from(bound) {
        format!(in alloc; "optimal {word} {value} nodes {nodes}\n")
    } else {
        format!(in alloc; "bound {bound} {word} {value} nodes {nodes}\n")
    }
}

fn claim_json(
    alloc: Global,
    objective: Objective,
    value: u64,
    bound: u32,
    nodes: u32,
) -> Result<String, AllocError>
    ensures { IfOk result (λ line. string_bytes line ≡ claim_json objective value bound nodes) }
{
    let word = objective_word(objective);
    let optimal = if value == u64::from(bound) {
        "true"
    } else {
        "false"
    };
    format!(in alloc;
        "{{\"optimal\":{optimal},\"{word}\":{value},\"bound\":{bound},\"nodes\":{nodes}}}\n"
    )
}

fn objective_word(objective: Objective) -> &'static str
    ensures { result.now ≡ objective_word objective }
{
    match objective {
        Objective::Cost => "cost",
        Objective::Makespan => "makespan",
    }
}

/// The line of a proof that proves nothing.
fn refused_line(alloc: Global, fault: ProofFault, json: bool) -> Result<String, AllocError>
    ensures { IfOk result
        (λ line. string_bytes line ≡ refused_line json (words_text (proof_fault_words fault))) }
{
    if json {
        format!(in alloc; "{{\"refused\":\"{fault}\"}}\n")
    } else {
        format!(in alloc; "refused {fault}\n")
    }
}
