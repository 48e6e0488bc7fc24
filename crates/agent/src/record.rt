//! The records of a tape.
ghost use Rattle.std.specs.Prelude.{◌≡◌, ◌*◌, ◌<◌, ◌↔◌, IsTrue, MatchOption};
ghost use Rattle.agent.specs.Records.{due_record, SaysDue};
ghost use Rattle.agent.specs.Code.Differences.{IsDifference};

use crate::tape::RECORD_SIZE;

/// What a record says else than the one that is due, by the first difference that matters.
#[derive(Clone, Copy, PartialEq, Eq)]
pub(crate) enum Difference {
    Damaged,
    WrongPlan,
    WrongAgent,
}

/// The record with a number.
pub(crate) fn due_record(plan: u32, agent: u16, number: u32) -> [u8; RECORD_SIZE]
    requires { number < 2 * 65535 }
    ensures { result ≡ due_record plan agent number }
{
    let [p0, p1, p2, p3] = plan.to_be_bytes();
    let [a0, a1] = agent.to_be_bytes();
    let [d0, d1] = (((number + 1) / 2) as u16).to_be_bytes();
    [0x50, (number % 2 + 1) as u8, p0, p1, p2, p3, a0, a1, d0, d1]
}

/// Whether bytes are the record with a number. Its parts are compared as numbers: where an agent
/// has only just spelled them, they are not put into memory.
#[inline(always)]
pub(crate) fn is_due(bytes: &[u8; RECORD_SIZE], plan: u32, agent: u16, number: u32) -> bool
    requires { number < 2 * 65535 }
    ensures { IsTrue result ↔ (bytes.now ≡ due_record plan agent number) }
{
    if bytes[0] != 0x50 || u32::from(bytes[1]) != number % 2 + 1 {
        return false;
    }
    let plan_told = u32::from_be_bytes([bytes[2], bytes[3], bytes[4], bytes[5]]);
    let agent_told = u16::from_be_bytes([bytes[6], bytes[7]]);
    let moves_told = u16::from_be_bytes([bytes[8], bytes[9]]);
    plan_told == plan && agent_told == agent && u32::from(moves_told) == (number + 1) / 2
}

/// How a record differs from the one that is due.
pub(crate) fn compare(bytes: &[u8; RECORD_SIZE], due: &[u8; RECORD_SIZE]) -> Option<Difference>
    ensures { MatchOption result (bytes.now ≡ due.now)
        (λ found. IsDifference due.now bytes.now found) }
{
    if !says_due(bytes, due) {
        Some(Difference::Damaged)
    } else if !same(&bytes[2..6], &due[2..6]) {
        Some(Difference::WrongPlan)
    } else if !same(&bytes[6..8], &due[6..8]) {
        Some(Difference::WrongAgent)
    } else {
        None
    }
}

/// Whether the first byte, the kind and the number of moves are the ones that are due.
fn says_due(bytes: &[u8; RECORD_SIZE], due: &[u8; RECORD_SIZE]) -> bool
    ensures { IsTrue result ↔ SaysDue due.now bytes.now }
{
    same(&bytes[..2], &due[..2]) && same(&bytes[8..10], &due[8..10])
}

fn same(left: &[u8], right: &[u8]) -> bool
    ensures { IsTrue result ↔ (left.now ≡ right.now) }
{
    left == right
}
