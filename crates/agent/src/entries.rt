//! Entries of a message of version 2.
ghost use Rattle.std.specs.Prelude.{◌≡◌, ◌<◌, length, Some, slice_get};
ghost use Rattle.agent.specs.Decoding.{entries_in, wrong_entry};
ghost use Rattle.agent.specs.Code.Listing.{entries_of};

use model::Entry;

/// An entry is spelled by so many bytes.
pub(crate) const ENTRY_LENGTH: usize = 6;

/// Entries, as bytes spell them or as a list.
#[derive(Clone, Copy)]
pub(crate) enum Entries<'a> {
    Spelled(&'a [u8]),
    Listed(&'a [Entry]),
}

impl Entries<'_> {
    pub(crate) fn count(&self) -> usize
        ensures { result ≡ length (entries_of self.now) }
    {
        match *self {
            Entries::Spelled(bytes) => bytes.len() / ENTRY_LENGTH,
            Entries::Listed(entries) => entries.len(),
        }
    }

    pub(crate) fn entry(&self, at: usize) -> Entry
        requires { at < length (entries_of self.now) }
        ensures { slice_get (entries_of self.now) at ≡ Some result }
    {
        match *self {
            Entries::Spelled(bytes) => spelled_entry(bytes, at),
            Entries::Listed(entries) => listed_entry(entries, at),
        }
    }

    /// The first entry that has the number 0, or whose agent is not greater than the one before.
    pub(crate) fn first_wrong(&self) -> Option<u32>
        ensures { result ≡ wrong_entry 0 0 (entries_of self.now) }
    {
        let mut least = 0u32;
        for at in 0..self.count() {
            let entry = self.entry(at);
            if entry.done == 0 || u32::from(entry.agent) < least {
                return Some(at as u32);
            }
            least = u32::from(entry.agent) + 1;
        }
        None
    }
}

/// The entry with a number, in the bytes that spell it.
fn spelled_entry(bytes: &[u8], at: usize) -> Entry
    requires { at < length (entries_in bytes.now) }
    ensures { slice_get (entries_in bytes.now) at ≡ Some result }
{
    prove!(at < bytes.len());
    let spelled = &bytes[ENTRY_LENGTH * at..ENTRY_LENGTH * at + ENTRY_LENGTH];
    Entry {
        agent: u16::from_be_bytes([spelled[0], spelled[1]]),
        done: u32::from_be_bytes([spelled[2], spelled[3], spelled[4], spelled[5]]),
    }
}

fn listed_entry(entries: &[Entry], at: usize) -> Entry
    requires { at < length entries.now }
    ensures { slice_get entries.now at ≡ Some result }
{
    entries[at]
}
