//! What is sent of a message that is signed.
ghost use Rattle.std.specs.Prelude.{◌≡◌, ℕ, List, IfOk, MatchOption};
ghost use Rattle.model.specs.Messages.{big_endian};
ghost use Rattle.signing.specs.Letters.{head_bytes, sealed, signed_text, IsLetter};

use crate::hmac::tag_of;
use std::alloc::{AllocError, Global};

/// What stands before a message: who says it, in which run, and how far that one has counted what
/// it says.
#[derive(Clone, Copy, Debug, PartialEq, Eq)]
pub struct Head {
    pub sender: u16,
    /// The number of the plan.
    pub run: u32,
    pub count: u64,
}

/// The bytes of what is sent, in their parts. `text` is the head and the message.
#[derive(Clone, Copy)]
pub(crate) struct Letter<'a> {
    pub(crate) head: Head,
    pub(crate) text: &'a [u8],
    pub(crate) message: &'a [u8],
    pub(crate) tag: &'a [u8],
}

const MAGIC: u8 = 0x53;

const VERSION: u8 = 1;

const HEAD: usize = 16;

const TAG: usize = 32;

/// What is sent of a message by the sender's key.
pub fn seal(alloc: Global, key: &[u8], head: Head, message: &[u8]) -> Result<Vec<u8>, AllocError>
    ensures { IfOk result (λ letter. letter.items ≡ sealed key.now head message.now) }
{
    let mut letter = Vec::new(alloc);
    letter.extend_from_slice(&head_bytes(head))?;
    letter.extend_from_slice(message)?;
    let tag = tag_of(key, &letter);
    letter.extend_from_slice(&tag)?;
    Ok(letter)
}

/// The bytes of the head.
fn head_bytes(head: Head) -> [u8; HEAD]
    ensures { result ≡ head_bytes head }
{
    let [s0, s1] = sender_bytes(head.sender);
    let [r0, r1, r2, r3] = run_bytes(head.run);
    let [c0, c1, c2, c3, c4, c5, c6, c7] = count_bytes(head.count);
    [
        MAGIC, VERSION, s0, s1, r0, r1, r2, r3, c0, c1, c2, c3, c4, c5, c6, c7,
    ]
}

// Each by itself: together they are too much for one search.
fn sender_bytes(sender: u16) -> [u8; 2]
    ensures { result ≡ big_endian 2 sender }
{
    sender.to_be_bytes()
}

fn run_bytes(run: u32) -> [u8; 4]
    ensures { result ≡ big_endian 4 run }
{
    run.to_be_bytes()
}

fn count_bytes(count: u64) -> [u8; 8]
    ensures { result ≡ big_endian 8 count }
{
    count.to_be_bytes()
}

/// The parts of what was sent, if the bytes have its form.
pub(crate) fn parts_of(letter: &[u8]) -> Option<Letter<'_>>
    ensures { MatchOption result
        ((h : Head) (message tag : List ℕ) → IsLetter h message tag letter.now → ⊥)
        (λ l. IsLetter l.head l.message.now l.tag.now letter.now
        × (l.text.now ≡ signed_text l.head l.message.now)) }
{
    if letter.len() < HEAD + TAG {
        return None;
    }
    let (text, tag) = letter.split_at(letter.len() - TAG);
    let (front, message) = text.split_at(HEAD);
    let head = read_head(front)?;
    Some(Letter {
        head,
        text,
        message,
        tag,
    })
}

/// The head that these bytes spell, if they spell one.
fn read_head(bytes: &[u8]) -> Option<Head>
    ensures { MatchOption result ((h : Head) → bytes.now ≡ head_bytes h → ⊥)
        (λ h. bytes.now ≡ head_bytes h) }
{
    let &[
        MAGIC,
        VERSION,
        s0,
        s1,
        r0,
        r1,
        r2,
        r3,
        c0,
        c1,
        c2,
        c3,
        c4,
        c5,
        c6,
        c7,
    ] = bytes
    else {
        return None;
    };
    Some(Head {
        sender: u16::from_be_bytes([s0, s1]),
        run: u32::from_be_bytes([r0, r1, r2, r3]),
        count: u64::from_be_bytes([c0, c1, c2, c3, c4, c5, c6, c7]),
    })
}
