//! Messages: how many moves an agent has finished.
ghost use Rattle.std.specs.Prelude.{◌≡◌, ◌<◌, ◌^◌, ℕ, Ok, Some, MatchResult};
ghost use Rattle.model.specs.Messages.{message_bytes, IsMessage};
ghost use Rattle.agent.specs.Decoding.{message_fault};

use model::MsgFault;

/// What a message tells: its sender, the number of the plan, and how many moves the sender has
/// finished.
#[derive(Clone, Copy, Debug, PartialEq, Eq, Hash)]
pub struct Finished {
    pub from: u16,
    pub plan: u32,
    pub done: u32,
}

pub(crate) const MAGIC: u8 = 0x46;

const VERSION: u8 = 1;

/// The twelve bytes of a message.
pub fn encode(finished: Finished) -> [u8; 12]
    ensures { IsMessage finished.plan finished.from finished.done result }
{
    let [f0, f1] = finished.from.to_be_bytes();
    let [p0, p1, p2, p3] = finished.plan.to_be_bytes();
    let [d0, d1, d2, d3] = finished.done.to_be_bytes();
    [MAGIC, VERSION, f0, f1, p0, p1, p2, p3, d0, d1, d2, d3]
}

/// What the bytes of a message tell.
pub fn decode(bytes: &[u8]) -> Result<Finished, MsgFault>
    ensures answer { MatchResult result (λ f. IsMessage f.plan f.from f.done bytes.now)
        (λ fault. message_fault bytes.now ≡ Some fault) }
    ensures each { (plan from done : ℕ) → plan < 2 ^ 32 → from < 2 ^ 16 → done < 2 ^ 32
        → IsMessage plan from done bytes.now
        → result ≡ Ok (record { from = from; plan = plan; done = done }) }
{
    if bytes.len() < 2 {
        return Err(MsgFault::BadLength);
    }
    if bytes[0] != MAGIC {
        return Err(MsgFault::BadMagic);
    }
    if bytes[1] != VERSION {
        return Err(MsgFault::BadVersion);
    }
    let &[_, _, f0, f1, p0, p1, p2, p3, d0, d1, d2, d3] = bytes else {
        return Err(MsgFault::BadLength);
    };
    Ok(Finished {
        from: u16::from_be_bytes([f0, f1]),
        plan: u32::from_be_bytes([p0, p1, p2, p3]),
        done: u32::from_be_bytes([d0, d1, d2, d3]),
    })
}
