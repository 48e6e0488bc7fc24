//! Messages of either version.
ghost use Rattle.std.specs.Prelude.{◌≡◌, ◌<◌, ◌^◌, ℕ, get_or, Some, Ok, MatchResult, IfOk};
ghost use Rattle.model.specs.Messages.{IsMessage, IsTold};
ghost use Rattle.agent.specs.Decoding.{any_fault, told_fault};
ghost use Rattle.agent.specs.Reading.{telling_of, IsReadAs};
ghost use Rattle.agent.specs.Tellings.{Telling, IsInRange};
ghost use Rattle.agent.specs.declared.message.Message.TheVariants as message;

use crate::entries::{ENTRY_LENGTH, Entries};
use crate::finished::{Finished, MAGIC, decode};
use model::MsgFault;
use std::marker::Model;

/// So many bytes of a message of version 2 stand before its entries.
pub(crate) const HEAD_LENGTH: usize = 10;

pub(crate) const VERSION_TWO: u8 = 2;

/// A message: of version 1, or one of version 2, which tells all that its sender knows.
#[derive(Debug, Drop)]
pub enum Message<'a> {
    One(Finished),
    Two(Told<'a>),
}

/// What a message of version 2 tells: a view of its bytes.
#[derive(Debug, Drop)]
pub struct Told<'a> {
    from: u16,
    plan: u32,
    /// Those of the entries.
    bytes: &'a [u8],
}

impl<'a> Model for Told<'a> {
    ghost use Rattle.agent.specs.Decoding.{entries_in};
    ghost use Rattle.agent.specs.Tellings.{Telling, IsWhole};

    ghost Value = { Telling };

    ghost view = { λ t. record {
      plan = t.plan;
      message = record { sender = t.from; entries = entries_in t.bytes.now };
    } };

    ghost invariant = { λ t. IsWhole (record
        { plan = t.plan; message = record { sender = t.from; entries = entries_in t.bytes.now } }) };
}

impl<'a> Told<'a> {
    ghost use Rattle.std.specs.Prelude.{length, option_map, slice_get};
    ghost use Rattle.agent.specs.Tellings.{IsWhole};
    ghost use Rattle.agent.specs.Code.Listing.{entries_of};

    /// The sender.
    pub fn from(&self) -> u16
        ensures { result ≡ self.now.message.sender }
    {
        self.from
    }

    /// The number of the plan.
    pub fn plan(&self) -> u32
        ensures { result ≡ self.now.plan }
    {
        self.plan
    }

    /// How many entries there are.
    pub fn count(&self) -> u16
        ensures { result ≡ length self.now.message.entries }
    {
        self.entries().count() as u16
    }

    /// The agent of an entry, and how many moves it has finished; `None` where there are no more
    /// entries.
    pub fn entry(&self, at: u32) -> Option<(u16, u32)>
        ensures { result ≡ option_map (λ entry. (entry.agent, entry.done))
            (slice_get self.now.message.entries at) }
    {
        let entries = self.entries();
        if at as usize >= entries.count() {
            return None;
        }
        let entry = entries.entry(at as usize);
        Some((entry.agent, entry.done))
    }

    pub(crate) fn entries(&self) -> Entries<'a>
        ensures entries { entries_of result ≡ self.now.message.entries }
        ensures whole { IsWhole self.now }
    {
        Entries::Spelled(self.bytes)
    }
}

/// What bytes tell, at the version that they say. Nothing is read past their end.
pub fn read_message(bytes: &[u8]) -> Result<Message<'_>, MsgFault>
    ensures reads { MatchResult result (λ m. IsReadAs m bytes.now)
        (λ fault. any_fault bytes.now ≡ Some fault) }
    ensures in_range { IfOk result (λ m. IsInRange (telling_of m)) }
    ensures each_one { (plan from done : ℕ) → plan < 2 ^ 32 → from < 2 ^ 16 → done < 2 ^ 32
        → IsMessage plan from done bytes.now
        → result ≡ Ok (message.One (record { from = from; plan = plan; done = done })) }
    ensures each_two { (t : Telling) → IsInRange t → IsTold t.plan t.message bytes.now
        → result ≡ Ok (message.Two t) }
{
    if bytes.len() >= 2 && bytes[0] == MAGIC && bytes[1] == VERSION_TWO {
        match read_told(bytes) {
            Ok(told) => return Ok(Message::Two(told)),
            Err(fault) => return Err(fault),
        }
    }
    match decode(bytes) {
        Ok(finished) => Ok(Message::One(finished)),
        Err(fault) => Err(fault),
    }
}

/// What bytes tell that begin as a message of version 2.
fn read_told(bytes: &[u8]) -> Result<Told<'_>, MsgFault>
    requires magic { get_or bytes.now 0 0 ≡ 0x46 }
    requires version { get_or bytes.now 1 0 ≡ 2 }
    ensures reads { MatchResult result (λ t. IsTold t.plan t.message bytes.now)
        (λ fault. told_fault bytes.now ≡ Some fault) }
    ensures in_range { IfOk result IsInRange }
{
    if bytes.len() < HEAD_LENGTH {
        return Err(MsgFault::BadLength);
    }
    let count = u16::from_be_bytes([bytes[8], bytes[9]]);
    let spelled = &bytes[HEAD_LENGTH..];
    if spelled.len() != ENTRY_LENGTH * count as usize {
        return Err(MsgFault::BadLength);
    }
    match Entries::Spelled(spelled).first_wrong() {
        Some(number) => Err(MsgFault::BadEntry(number)),
        None => Ok(Told {
            from: u16::from_be_bytes([bytes[2], bytes[3]]),
            plan: u32::from_be_bytes([bytes[4], bytes[5], bytes[6], bytes[7]]),
            bytes: spelled,
        }),
    }
}
