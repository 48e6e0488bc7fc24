//! Replies to the common events. What is refused is told in functions of its own: the cell of a
//! reply then stays in a register, and is not put into memory beside the numbers of other replies,
//! where reading it would wait for them.
ghost use Rattle.std.specs.Prelude.{◌≡◌, None, Some, Err, MatchResult};
ghost use Rattle.model.specs.History.{moving, arrived, refused};
ghost use Rattle.model.specs.Replies.{answer_of};
ghost use Rattle.agent.specs.Replies.{why_of, answered, delivered};

use agent::replies::why_of;
use agent::{HearFault, Refusal, replies};
use grid::Cell;
use model::Reply;
use std::alloc::AllocError;

/// The reply to a start.
#[inline(always)]
pub(crate) fn reply_to_start(answer: Result<Cell, Refusal>) -> Reply
    ensures { answer_of result ≡ answered moving answer }
{
    match answer {
        Ok(cell) => Reply::Moving(cell),
        Err(refusal) => refused(refusal),
    }
}

/// The reply to a finish.
#[inline(always)]
pub(crate) fn reply_to_finish(answer: Result<Cell, Refusal>) -> Reply
    ensures { answer_of result ≡ answered arrived answer }
{
    match answer {
        Ok(cell) => Reply::Arrived(cell),
        Err(refusal) => refused(refusal),
    }
}

/// The reply to a delivery, unless memory was refused.
#[inline(always)]
pub(crate) fn reply_to_delivery(answer: Result<(u16, u32), HearFault>) -> Result<Reply, AllocError>
    ensures { MatchResult result (λ reply. delivered answer ≡ Some (answer_of reply))
        (λ _. delivered answer ≡ None) }
{
    match answer {
        Ok((sender, known)) => Ok(Reply::Heard(sender, known)),
        Err(fault) => not_heard(fault),
    }
}

/// The reply to what is refused. It has its place in memory here, and none where the common events
/// are answered.
#[inline(always)]
fn refused(refusal: Refusal) -> Reply
    ensures { answer_of result ≡ refused (why_of refusal) }
{
    let reply = tell_refused(refusal);
    reply
}

#[inline(never)]
fn tell_refused(refusal: Refusal) -> Reply
    ensures { answer_of result ≡ refused (why_of refusal) }
{
    Reply::Refused(why_of(refusal))
}

/// The same of a message that is not heard.
#[inline(always)]
fn not_heard(fault: HearFault) -> Result<Reply, AllocError>
    ensures { MatchResult result (λ reply. delivered (Err fault) ≡ Some (answer_of reply))
        (λ _. delivered (Err fault) ≡ None) }
{
    let reply = tell_not_heard(fault);
    reply
}

#[inline(never)]
fn tell_not_heard(fault: HearFault) -> Result<Reply, AllocError>
    ensures { MatchResult result (λ reply. delivered (Err fault) ≡ Some (answer_of reply))
        (λ _. delivered (Err fault) ≡ None) }
{
    replies::reply_to_delivery(Err(fault))
}
