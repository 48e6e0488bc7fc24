//! Messages that show the tape of their hearer to be an older one.
ghost use Rattle.std.specs.Prelude.{◌≡◌, MatchOption, option_map};
ghost use Rattle.model.specs.Timetable.{Timetable};
ghost use Rattle.depgraph.specs.AgentParts.{IsPartOf};
ghost use Rattle.agent.specs.Agents.{state_of};
ghost use Rattle.robot.specs.Stale.{IsFresh, IsStale};
ghost use Rattle.robot.specs.Code.Telling.{IsMoreIn, IsNoMoreIn, if_more};
ghost use Rattle.robot.specs.Code.Telling.{number_taken, stale_word_of, telling_one};

use agent::{Agent, Finished, Message, Tape, Told, read_message};
use depgraph::Part;

/// What a message says: its sender, and how many moves its hearer has finished.
#[derive(Clone, Copy, Debug, PartialEq, Eq)]
pub struct StaleWord {
    pub sender: u16,
    pub number: u32,
}

/// What a message says of the moves of its hearer, if it shows that the hearer's tape is an older
/// one. A broken agent looks at no message.
pub fn older_tape<T: Tape>(
    agent: &Agent<'_, T>,
    part: &Part<'_>,
    message: &[u8],
) -> Option<StaleWord>
    requires { part.now ≡ agent.now.part }
    ensures { (tt : Timetable) → IsPartOf tt agent.now.part → MatchOption result
        (IsFresh tt agent.now.part.agent (state_of T.state agent.now) message.now)
        (λ word. IsStale tt agent.now.part.agent (state_of T.state agent.now) message.now
        word.sender word.number) }
{
    if agent.is_broken() {
        return None;
    }
    stale_word(part, agent.done(), message)
}

/// What a message says of the agent of a part that has finished so many moves, where the agent
/// would take it and it says more.
pub(crate) fn stale_word(part: &Part<'_>, done: u32, bytes: &[u8]) -> Option<StaleWord>
    ensures { (tt : Timetable) → IsPartOf tt part.now
        → MatchOption result (IsNoMoreIn tt part.now.agent done bytes.now)
        (IsMoreIn tt part.now.agent done bytes.now) }
{
    match read_message(bytes) {
        Ok(Message::One(finished)) => {
            more_than(done, finished.from, number_said(part, finished))
        }
        Ok(Message::Two(told)) => more_than(done, told.from(), number_told(part, &told)),
        Err(_) => None,
    }
}

/// What a sender says, where it is more than this number.
fn more_than(done: u32, sender: u16, number: Option<u32>) -> Option<StaleWord>
    ensures { result ≡ option_map (stale_word_of sender) (if_more done number) }
{
    match number {
        Some(number) if number > done => Some(StaleWord { sender, number }),
        _ => None,
    }
}

/// How many moves a message of version 1 says that the agent of a part has finished; `None` where
/// the agent would not take it.
fn number_said(part: &Part<'_>, finished: Finished) -> Option<u32>
    ensures { (tt : Timetable) → IsPartOf tt part.now
        → result ≡ number_taken tt part.now.agent (telling_one finished) }
{
    let moves = part.moves(u32::from(finished.from))?;
    if finished.plan != part.number() || finished.done > moves {
        return None;
    }
    if finished.from == part.agent() {
        Some(finished.done)
    } else {
        Some(0)
    }
}

/// The same of a message of version 2.
fn number_told(part: &Part<'_>, told: &Told<'_>) -> Option<u32>
    ensures { (tt : Timetable) → IsPartOf tt part.now
        → result ≡ number_taken tt part.now.agent told.now }
{
    if told.plan() != part.number() || u32::from(told.from()) >= part.agents() {
        return None;
    }
    let mut number = 0;
    'entries: for at in 0..u32::from(told.count()) {
        let (agent, done) = told.entry(at).unwrap();
        if done > part.moves(u32::from(agent))? {
            return None;
        }
        if agent == part.agent() {
            number = done.max(number);
        }
    }
    Some(number)
}
