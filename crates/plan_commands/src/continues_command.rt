//! `mapf continues`: says whether a plan goes on from another.
ghost use Rattle.std.specs.Prelude.{IfOk, MatchResult, string_bytes, ◌≡◌};
ghost use Rattle.ending.specs.Ending.{EndsAndTells, answered_with, end_of};
ghost use Rattle.ending.specs.declared.status.Status.TheVariants.{Done};
ghost use Rattle.continuing.specs.Departing.{IsContinueFault};
ghost use Rattle.ending.specs.Rewriting.{EndsByLine};
ghost use Rattle.plan_commands.specs.ContinuesCommand.{AnswersContinues, IsContinuation};
ghost use Rattle.plan_commands.specs.ContinuesCommand.{JudgesPlans, ReadsContinuation};
ghost use Rattle.plan_commands.specs.ContinuesCommand.{continuation_line};

use crate::continuation_fault::ContinuationFault;
use checker::check;
use continuing::{ContinueFault, added_moves, continues, longest};
use ending::{Ending, Status, conclude, finish, write_text};
use grid::{Map, read_map};
use plan_text::{Plan, read_plan};
use std::alloc::{AllocError, Global};
use std::io::{Read, Write};
use text_io::{Counted, Failure};

/// As `perform`, with a fault's line on `err`. The answer is the exit status, which stays where
/// `err` fails.
pub fn continues_cmd<M: Read, O: Read, N: Read, W: Write, E: Write>(
    alloc: Global,
    map: &mut Counted<M>,
    old: &mut Counted<O>,
    new: &mut Counted<N>,
    out: &mut Counted<W>,
    err: &mut Counted<E>,
) -> u8
    ensures { EndsAndTells
        (AnswersContinues M.remaining O.remaining N.remaining W.contents map.old map.new old.old
        old.new new.old new.new out.old out.new)
        E.contents err.old err.new result }
{
    conclude(perform(alloc, map, old, new, out), err)
}

/// Reads a map from `map` and plans from `old` and `new`, checks both plans on the map, and writes
/// from when on the new one adds to the old one, and how much, to `out`.
pub fn perform<M: Read, O: Read, N: Read, W: Write>(
    alloc: Global,
    map: &mut Counted<M>,
    old: &mut Counted<O>,
    new: &mut Counted<N>,
    out: &mut Counted<W>,
) -> Ending
    ensures { AnswersContinues M.remaining O.remaining N.remaining W.contents map.old map.new
        old.old old.new new.old new.new
        out.old out.new (end_of result) }
{
    match read_continuation(alloc, map, old, new) {
        Ok(continuation) => tell(alloc, continuation, out),
        Err(fault) => Ending::gave_up(fault.words()),
    }
}

/// What a plan adds to one that it continues.
#[derive(Clone, Copy)]
struct Continuation {
    /// The time from which on it adds.
    time: usize,
    /// How many moves it adds.
    moves: usize,
}

/// Reads the map, the old plan and the new one, and judges the plans.
#[tactic(auto, using(crate::proofs::ContinuesLemmas::judged_plans, crate::proofs::ContinuesLemmas::no_new_plan))]
fn read_continuation<M: Read, O: Read, N: Read>(
    alloc: Global,
    map: &mut Counted<M>,
    old: &mut Counted<O>,
    new: &mut Counted<N>,
) -> Result<Continuation, ContinuationFault>
    ensures { ReadsContinuation M.remaining O.remaining N.remaining map.old map.new old.old old.new
        new.old new.new result }
{
    let map = read_map(alloc, map)?;
    let old = match read_plan(alloc, old) {
        Ok(plan) => plan,
        Err(fault) => return Err(ContinuationFault::OldText(fault)),
    };
    let new = match read_plan(alloc, new) {
        Ok(plan) => plan,
        Err(fault) => return Err(ContinuationFault::NewText(fault)),
    };
    judge(alloc, &map, old, new)
}

/// Checks the old plan on the map and then the new one, and says what the new one adds.
fn judge(alloc: Global, map: &Map, old: Plan, new: Plan) -> Result<Continuation, ContinuationFault>
    ensures { JudgesPlans map.now old new result }
{
    // Before the checks, which take the plans.
    let compared = compare(&old, &new);
    if let Err(rejected) = check(alloc, map, old) {
        return Err(ContinuationFault::Old(rejected.fault));
    }
    if let Err(rejected) = check(alloc, map, new) {
        return Err(ContinuationFault::New(rejected.fault));
    }
    Ok(compared?)
}

/// What the new plan adds to the old one, or why it doesn't continue it.
fn compare(old: &Plan, new: &Plan) -> Result<Continuation, ContinueFault>
    ensures { MatchResult result (IsContinuation old.now new.now)
        (IsContinueFault old.now new.now) }
{
    continues(old, new)?;
    Ok(Continuation {
        time: longest(old.courses()),
        moves: added_moves(old, new),
    })
}

/// Writes the line of what a plan adds.
fn tell<W: Write>(alloc: Global, continuation: Continuation, out: &mut Counted<W>) -> Ending
    ensures { EndsByLine W.contents out.old out.new (answered_with Done) (end_of result)
        (continuation_line continuation.time continuation.moves) }
{
    match line_of(alloc, continuation) {
        Ok(line) => {
            let written = write_text(line.as_bytes(), out);
            finish(written, Ending::answered_with(Status::Done), out)
        }
        Err(_) => Ending::gave_up(Failure::OutOfMemory.words()),
    }
}

fn line_of(alloc: Global, continuation: Continuation) -> Result<String, AllocError>
    ensures { IfOk result
        (λ line. string_bytes line ≡ continuation_line continuation.time continuation.moves) }
{
    let Continuation { time, moves } = continuation;
    format!(in alloc; "continues from {time}, adds {moves} moves\n")
}
