//! What a sender seals.
ghost use Rattle.std.specs.Prelude.{◌≡◌, MatchResult};
ghost use Rattle.signing.specs.declared.sealer.SealFault.TheVariants as seal_fault;
ghost use Rattle.signing.specs.Sealing.{Seals, SealsNone, Sender};

use crate::counter::{CountStore, Counter};
use crate::letter::{Head, seal};
use std::alloc::{AllocError, Global};
use std::marker::Model;

/// Why a message isn't sealed. Nothing is to be sent then.
#[derive(Clone, Copy, Debug, PartialEq, Eq)]
pub enum SealFault {
    /// No block of counts can be reserved.
    CountFailed,
    OutOfMemory,
}

impl From<AllocError> for SealFault {
    ghost from_gives = { λ _ fault. fault ≡ seal_fault.OutOfMemory };

    fn from(_e: AllocError) -> SealFault {
        SealFault::OutOfMemory
    }
}

/// A sender of a run.
#[derive(Drop)]
pub struct Sealer<S: CountStore> {
    number: u16,
    key: [u8; 32],
    run: u32,
    counter: Counter<S>,
}

impl<S: CountStore> Model for Sealer<S> {
    ghost Value = { Sender };

    ghost view = { λ s. record {
      number = s.number;
      key = s.key;
      run = s.run;
      counting = s.counter;
    } };
}

impl<S: CountStore> Sealer<S> {
    /// The sender with this number and key.
    pub fn new(number: u16, key: [u8; 32], run: u32, counter: Counter<S>) -> Sealer<S>
        ensures { result ≡ record {
          number = number;
          key = key;
          run = run;
          counting = counter;
        } }
    {
        Sealer {
            number,
            key,
            run,
            counter,
        }
    }

    /// What is to be sent of a message.
    pub fn seal(&mut self, alloc: Global, message: &[u8]) -> Result<Vec<u8>, SealFault>
        ensures { MatchResult result
            (λ letter. Seals self.old self.new message.now letter.items)
            (SealsNone self.old self.new) }
    {
        let Ok(count) = self.counter.take() else {
            return Err(SealFault::CountFailed);
        };
        let head = Head {
            sender: self.number,
            run: self.run,
            count,
        };
        let letter = seal(alloc, &self.key, head, message)?;
        Ok(letter)
    }
}
