//! Which letters are taken, and why others are dropped.
ghost use Rattle.std.specs.Prelude.{◌≡◌, ◌↔◌, ℕ, List, length, replicate, take, drop};
ghost use Rattle.std.specs.Prelude.{IfOk, IsTrue, None, Ok, Err, MatchOption, MatchResult};
ghost use Rattle.model.specs.Messages.{big_endian};
ghost use Rattle.signing.specs.Hearing.{first_judge};
ghost use Rattle.signing.specs.Letters.{signed_text, IsLetter};
ghost use Rattle.signing.specs.Verifying.{behind, last_taken, Judge, IsDroppedFor, IsNewer, IsSealed};
ghost use Rattle.signing.specs.Verifying.{IsAccepted, NamesSender, Opens};

use crate::hmac::tag_of;
use crate::letter::{Head, Letter, parts_of};
use crate::tag::is_same_tag;
use std::alloc::{AllocError, Global};
use std::marker::Model;

/// Why a letter is dropped, in the order in which this is looked at.
#[derive(Clone, Copy, Debug, PartialEq, Eq)]
pub enum Dropped {
    /// It has not the form of what is signed.
    NotSigned,
    /// It was signed for another run.
    OtherRun,
    /// There is no key of its sender.
    UnknownSender,
    /// It was forged or damaged, or signed by another key.
    BadTag,
    /// Its message names another sender.
    NotItsSender,
    /// Its sender has said this, or something later, before.
    NotNewer,
}

/// How many bytes a key has.
const KEY: usize = 32;

/// What is taken of what the senders of a run have signed. What it drops changes nothing.
#[derive(Drop)]
pub struct Verifier {
    run: u32,
    keys: Vec<Option<[u8; KEY]>>,
    taken: Vec<Option<u64>>,
}

impl Model for Verifier {
    ghost Value = { Judge };

    ghost view = { λ v. record { run = v.run; keys = v.keys.items; taken = v.taken.items } };

    ghost invariant = { λ v. length v.taken.items ≡ length v.keys.items };
}

impl Verifier {
    /// One that has taken nothing yet; the keys stand by the senders' numbers.
    pub fn new(
        alloc: Global,
        run: u32,
        keys: Vec<Option<[u8; KEY]>>,
    ) -> Result<Verifier, AllocError>
        ensures { IfOk result (λ judge. judge ≡ first_judge run keys.items) }
    {
        let mut taken = Vec::new(alloc);
        taken.resize(keys.len(), None)?;
        Ok(Verifier { run, keys, taken })
    }

    /// The message of a letter, or why it is dropped.
    pub fn open<'a>(&mut self, letter: &'a [u8]) -> Result<&'a [u8], Dropped>
        ensures { MatchResult result
            (λ message. Opens self.old self.new letter.now (Ok message.now))
            (λ why. Opens self.old self.new letter.now (Err why)) }
    {
        let Some(parts) = parts_of(letter) else {
            return Err(Dropped::NotSigned);
        };
        match self.judge(&parts) {
            Some(why) => Err(why),
            None => {
                self.taken[usize::from(parts.head.sender)] = Some(parts.head.count);
                Ok(parts.message)
            }
        }
    }

    /// Why the letter is dropped, if it is.
    fn judge(&self, letter: &Letter<'_>) -> Option<Dropped>
        requires tag { length letter.now.tag.now ≡ 32 }
        requires text { letter.now.text.now
            ≡ signed_text letter.now.head letter.now.message.now }
        ensures { (bytes : List ℕ) → IsLetter letter.now.head letter.now.message.now
            letter.now.tag.now bytes → MatchOption result
            (IsAccepted self.now letter.now.head letter.now.message.now bytes)
            (IsDroppedFor self.now bytes) }
    {
        match self.judge_seal(letter) {
            Some(why) => Some(why),
            None => self.judge_message(letter),
        }
    }

    /// The same of a letter that its sender sealed.
    fn judge_message(&self, letter: &Letter<'_>) -> Option<Dropped>
        ensures { (bytes : List ℕ)
            → IsSealed self.now letter.now.head letter.now.message.now bytes
            → MatchOption result
            (IsAccepted self.now letter.now.head letter.now.message.now bytes)
            (IsDroppedFor self.now bytes) }
    {
        if !names_sender(letter.message, letter.head.sender) {
            return Some(Dropped::NotItsSender);
        }
        if !self.is_newer(letter.head) {
            return Some(Dropped::NotNewer);
        }
        None
    }

    /// Why nothing that the letter says is believed, if it isn't.
    fn judge_seal(&self, letter: &Letter<'_>) -> Option<Dropped>
        requires tag { length letter.now.tag.now ≡ 32 }
        requires text { letter.now.text.now
            ≡ signed_text letter.now.head letter.now.message.now }
        ensures { (bytes : List ℕ) → IsLetter letter.now.head letter.now.message.now
            letter.now.tag.now bytes → MatchOption result
            (IsSealed self.now letter.now.head letter.now.message.now bytes)
            (IsDroppedFor self.now bytes) }
    {
        let head = letter.head;
        if head.run != self.run {
            return Some(Dropped::OtherRun);
        }
        let Some(Some(key)) = self.keys.get(usize::from(head.sender)) else {
            return Some(Dropped::UnknownSender);
        };
        if !is_same_tag(letter.tag, &tag_of(key, letter.text)) {
            return Some(Dropped::BadTag);
        }
        None
    }

    /// Whether the count is above the last one of the sender.
    fn is_newer(&self, head: Head) -> bool
        ensures { IsTrue result ↔ IsNewer (last_taken self.now head.sender) head.count }
    {
        match self.taken.get(usize::from(head.sender)) {
            Some(Some(last)) => *last < head.count,
            _ => true,
        }
    }
}

/// Whether the message names the sender.
fn names_sender(message: &[u8], sender: u16) -> bool
    ensures { IsTrue result ↔ NamesSender message.now sender }
{
    match message {
        &[_, _, s0, s1, ..] => u16::from_be_bytes([s0, s1]) == sender,
        _ => false,
    }
}
