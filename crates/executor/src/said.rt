//! Messages that were said.
ghost use Rattle.std.specs.Prelude.{◌≡◌, ◌<◌, ◌^◌, [], ◌∷◌, ◌++◌};
ghost use Rattle.std.specs.Prelude.{length, Some, IfOk, OnOk, OnErr, slice_get};
ghost use Rattle.model.specs.declared.version.Version.TheVariants.{One, Two};
ghost use Rattle.model.specs.Messages.{own_message};
ghost use Rattle.executor.specs.Code.Telling.{message_told};

use agent::{Agent, CountedTape};
use model::{Entry, Version};
use std::alloc::{AllocError, Global};
use std::marker::Model;

/// A message of version 2: its sender, and which entries of all messages are its own, from the
/// first on.
#[derive(Clone, Copy, Debug)]
pub struct Note {
    pub first: usize,
    pub count: u32,
    pub sender: u16,
}

/// Every message of a run that was said, in order.
#[derive(Debug, Drop)]
pub struct Said {
    version: Version,
    /// At version 1 the one entry of each message; at version 2 those of all messages, one
    /// message's behind the other's.
    entries: Vec<Entry>,
    /// At version 2 which entries are each message's.
    notes: Vec<Note>,
}

impl Model for Said {
    ghost use Rattle.executor.specs.Code.Notes.{AreNoted};
    ghost use Rattle.executor.specs.SaidMessages.{SaidMessages, messages_in};

    ghost Value = { SaidMessages };

    ghost view = { λ s. record {
      version = s.version;
      messages = messages_in s.version s.entries.items s.notes.items;
    } };

    ghost invariant = { λ s. AreNoted s.entries.items s.notes.items };
}

impl Said {
    /// Nothing is said yet.
    pub(crate) fn new(alloc: Global, version: Version) -> Said
        ensures { result ≡ record { version = version; messages = [] } }
    {
        Said {
            version,
            entries: Vec::new(alloc),
            notes: Vec::new(alloc),
        }
    }

    pub(crate) fn version(&self) -> Version
        ensures { result ≡ self.now.version }
    {
        self.version
    }

    /// How many messages were said.
    pub(crate) fn count(&self) -> u64
        ensures count { result ≡ length self.now.messages }
        ensures within { result < 2 ^ 63 }
    {
        match self.version {
            Version::One => self.entries.len() as u64,
            Version::Two => self.notes.len() as u64,
        }
    }

    /// Keeps a message of version 1.
    pub(crate) fn keep_own(&mut self, entry: Entry) -> Result<(), AllocError>
        requires { self.old.version ≡ One }
        ensures ok { OnOk result
            (self.new ≡ record self.old
            { messages = self.old.messages ++ own_message entry.agent entry.done ∷ [] }) }
        ensures err { OnErr result (self.new ≡ self.old) }
    {
        self.entries.push(entry)?;
        Ok(())
    }

    /// Keeps what an agent tells at version 2.
    pub(crate) fn keep_told(&mut self, teller: &Agent<'_, CountedTape>) -> Result<(), AllocError>
        requires { self.old.version ≡ Two }
        ensures ok { OnOk result
            (self.new ≡ record self.old
            { messages = self.old.messages ++ message_told teller.now ∷ [] }) }
        ensures err { OnErr result (self.new ≡ self.old) }
    {
        let first = self.entries.len();
        teller.put_entries(&mut self.entries)?;
        let count = (self.entries.len() - first) as u32;
        let sender = teller.id();
        match self.notes.push(Note {
            first,
            count,
            sender,
        }) {
            Ok(()) => Ok(()),
            Err(_) => {
                self.entries.truncate(first);
                Err(AllocError)
            }
        }
    }

    /// A message of version 1.
    pub(crate) fn own(&self, message: u64) -> Entry
        requires version { self.now.version ≡ One }
        requires there { message < length self.now.messages }
        ensures { slice_get self.now.messages message
            ≡ Some (own_message result.agent result.done) }
    {
        self.entries[message as usize]
    }

    /// The sender and the entries of a message of version 2.
    pub(crate) fn told(&self, message: u64) -> (u16, &[Entry])
        requires version { self.now.version ≡ Two }
        requires there { message < length self.now.messages }
        ensures { slice_get self.now.messages message
            ≡ Some (record { sender = result.0; entries = result.1.now }) }
    {
        let note = self.notes[message as usize];
        (
            note.sender,
            &self.entries[note.first..note.first + note.count as usize],
        )
    }
}
