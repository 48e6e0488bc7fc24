//! What an agent answers, as replies to events.
ghost use Rattle.std.specs.Prelude.{◌≡◌, None, Some, MatchResult};
ghost use Rattle.model.specs.History.{moving, arrived};
ghost use Rattle.model.specs.Replies.{answer_of};
ghost use Rattle.agent.specs.Replies.{why_of, answered, delivered, stood};

use crate::refusal::{HearFault, Refusal};
use grid::Cell;
use model::{Held, MsgFault, Reply, Why};
use std::alloc::AllocError;

/// The reply to a start.
pub fn reply_to_start(answer: Result<Cell, Refusal>) -> Reply
    ensures { answer_of result ≡ answered moving answer }
{
    match answer {
        Ok(cell) => Reply::Moving(cell),
        Err(refusal) => Reply::Refused(why_of(refusal)),
    }
}

/// The reply to a finish.
pub fn reply_to_finish(answer: Result<Cell, Refusal>) -> Reply
    ensures { answer_of result ≡ answered arrived answer }
{
    match answer {
        Ok(cell) => Reply::Arrived(cell),
        Err(refusal) => Reply::Refused(why_of(refusal)),
    }
}

/// The reply to a delivery, unless memory was refused.
pub fn reply_to_delivery(answer: Result<(u16, u32), HearFault>) -> Result<Reply, AllocError>
    ensures { MatchResult result (λ reply. delivered answer ≡ Some (answer_of reply))
        (λ _. delivered answer ≡ None) }
{
    let why = match answer {
        Ok((sender, known)) => return Ok(Reply::Heard(sender, known)),
        Err(HearFault::OutOfMemory) => return Err(AllocError),
        Err(HearFault::Message(MsgFault::BadLength)) => Why::BadLength,
        Err(HearFault::Message(MsgFault::BadMagic)) => Why::BadMagic,
        Err(HearFault::Message(MsgFault::BadVersion)) => Why::BadVersion,
        Err(HearFault::Message(MsgFault::BadEntry(number))) => Why::BadEntry(number),
        Err(HearFault::WrongPlan) => Why::WrongPlan,
        Err(HearFault::NoSuchAgent) => Why::NoSuchAgent,
        Err(HearFault::TooMany) => Why::TooMany,
        Err(HearFault::Broken) => Why::Broken,
    };
    Ok(Reply::Refused(why))
}

/// The reply to a restart.
pub fn reply_to_restart(held: Held, done: u32) -> Reply
    ensures { answer_of result ≡ stood held done }
{
    match held {
        Held::At(cell) => Reply::At(cell, done),
        Held::Between(from, to) => Reply::Between(from, to, done),
    }
}

/// The reason of a refusal.
pub fn why_of(refusal: Refusal) -> Why
    ensures { result ≡ why_of refusal }
{
    match refusal {
        Refusal::Broken => Why::Broken,
        Refusal::AlreadyMoving => Why::AlreadyMoving,
        Refusal::AtEnd => Why::AtEnd,
        Refusal::Waits { agent, count } => Why::Waits(agent, count),
        Refusal::NotMoving => Why::NotMoving,
        Refusal::StoreFailed => Why::StoreFailed,
    }
}
