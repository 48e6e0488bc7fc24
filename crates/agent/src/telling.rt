//! The bytes of a message of version 2.
ghost use Rattle.std.specs.Prelude.{◌≡◌, ◌<◌, ◌≤◌, ◌∷◌, ◌++◌, ℕ, length};
ghost use Rattle.std.specs.Prelude.{take, drop, flat_map, IfOk, OnOk, OnErr};
ghost use Rattle.model.specs.Messages.{big_endian, entry_bytes, whole_message, IsTold};
ghost use Rattle.agent.specs.Counters.{known_in, AreWithin};
ghost use Rattle.agent.specs.Code.Told.{told_entries};

use crate::counters::{Counter, Counters};
use crate::entries::ENTRY_LENGTH;
use crate::finished::MAGIC;
use crate::message::{HEAD_LENGTH, VERSION_TWO};
use model::Entry;
use std::alloc::{AllocError, Global};

/// The message of an agent with all that it knows: what it has finished itself, and what it has
/// heard of others. It takes memory once.
pub(crate) fn tell(
    alloc: Global,
    plan: u32,
    from: u16,
    done: u32,
    counters: &Counters,
) -> Result<Vec<u8>, AllocError>
    requires own { from < 65535 }
    requires few { AreWithin 65535 counters.now }
    ensures { IfOk result (λ bytes. (agents : ℕ) → from < agents → AreWithin agents counters.now
        → IsTold plan (whole_message agents from done (known_in counters.now)) bytes.items) }
{
    let (below, above) = counters.around(from);
    let room = HEAD_LENGTH + ENTRY_LENGTH * (below.len() + 1 + above.len());
    let mut bytes = Vec::with_capacity(alloc, room)?;
    bytes.extend_from_slice(&[0; HEAD_LENGTH])?;
    put_around(&mut bytes, below, Counter { agent: from, done }, above)?;
    let count = ((bytes.len() - HEAD_LENGTH) / ENTRY_LENGTH) as u16;
    put_head(&mut bytes, &head(plan, from, count));
    Ok(bytes)
}

/// Writes what stands before the entries over the bytes that were left for it.
fn put_head(bytes: &mut [u8], head: &[u8; HEAD_LENGTH])
    requires { HEAD_LENGTH ≤ length bytes.old }
    ensures { bytes.new ≡ head.now ++ drop HEAD_LENGTH bytes.old }
{
    bytes[..HEAD_LENGTH].copy_from_slice(head);
}

/// Puts the entries of counters with one of their own between them.
fn put_around(
    bytes: &mut Vec<u8>,
    below: &[Counter],
    own: Counter,
    above: &[Counter],
) -> Result<(), AllocError>
    ensures { OnOk result
        (bytes.new.items ≡ bytes.old.items ++ flat_map entry_bytes
        (told_entries (below.now ++ own ∷ above.now))) }
{
    put_known(bytes, below)?;
    put_known(bytes, &[own])?;
    put_known(bytes, above)
}

/// Puts the entries of that message behind a list, which is as it was where memory is refused. It
/// takes memory once.
pub(crate) fn put_told(
    entries: &mut Vec<Entry>,
    from: u16,
    done: u32,
    counters: &Counters,
) -> Result<(), AllocError>
    ensures put { OnOk result ((agents : ℕ) → from < agents → AreWithin agents counters.now
        → entries.new.items ≡ entries.old.items
        ++ (whole_message agents from done (known_in counters.now)).entries) }
    ensures err { OnErr result (entries.new.items ≡ entries.old.items) }
{
    let (below, above) = counters.around(from);
    let before = entries.len();
    let put = put_parts(entries, below, Counter { agent: from, done }, above);
    if put.is_err() {
        entries.truncate(before);
    }
    put
}

/// Puts the entries of an agent's own counter between those of lesser and those of greater agents.
fn put_parts(
    entries: &mut Vec<Entry>,
    below: &[Counter],
    own: Counter,
    above: &[Counter],
) -> Result<(), AllocError>
    ensures put { OnOk result
        (entries.new.items ≡ entries.old.items ++ told_entries (below.now ++ own ∷ above.now)) }
    ensures begins { take (length entries.old.items) entries.new.items ≡ entries.old.items }
{
    entries.reserve(below.len() + 1 + above.len())?;
    put_counters(entries, below)?;
    put_counters(entries, &[own])?;
    put_counters(entries, above)
}

/// Puts the entry of each agent that is known to have finished a move.
fn put_counters(entries: &mut Vec<Entry>, counters: &[Counter]) -> Result<(), AllocError>
    ensures put { OnOk result (entries.new.items ≡ entries.old.items ++ told_entries counters.now) }
    ensures begins { take (length entries.old.items) entries.new.items ≡ entries.old.items }
{
    for counter in counters {
        if counter.done > 0 {
            entries.push(Entry {
                agent: counter.agent,
                done: counter.done,
            })?;
        }
    }
    Ok(())
}

/// Puts the bytes of the entry of each agent that is known to have finished a move.
fn put_known(bytes: &mut Vec<u8>, counters: &[Counter]) -> Result<(), AllocError>
    ensures { OnOk result
        (bytes.new.items ≡ bytes.old.items ++ flat_map entry_bytes (told_entries counters.now)) }
{
    for counter in counters {
        if counter.done > 0 {
            put_entry(bytes, *counter)?;
        }
    }
    Ok(())
}

fn put_entry(bytes: &mut Vec<u8>, counter: Counter) -> Result<(), AllocError>
    ensures { OnOk result
        (bytes.new.items ≡ bytes.old.items
        ++ entry_bytes (record { agent = counter.agent; done = counter.done })) }
{
    let [a0, a1] = counter.agent.to_be_bytes();
    let [d0, d1, d2, d3] = counter.done.to_be_bytes();
    bytes.extend_from_slice(&[a0, a1, d0, d1, d2, d3])
}

/// What stands before the entries.
fn head(plan: u32, from: u16, count: u16) -> [u8; HEAD_LENGTH]
    ensures { result ≡ 0x46 ∷ 2 ∷ (big_endian 2 from ++ big_endian 4 plan ++ big_endian 2 count) }
{
    let [f0, f1] = from.to_be_bytes();
    let [p0, p1, p2, p3] = plan.to_be_bytes();
    let [c0, c1] = count.to_be_bytes();
    [MAGIC, VERSION_TWO, f0, f1, p0, p1, p2, p3, c0, c1]
}
