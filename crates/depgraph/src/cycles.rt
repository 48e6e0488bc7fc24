//! The cycles of entries that follow one another.
ghost use Rattle.std.specs.Prelude.{◌≡◌, ◌<◌, ◌≤◌, ℕ, IfOk};
ghost use Rattle.std.specs.Prelude.{IsTrue, [], length, get_or, slice_set as set};
ghost use Rattle.depgraph.specs.Code.Cycles.{LinksTo, AreLinks, IsCycleWalked};
ghost use Rattle.depgraph.specs.Code.Links.{link_of, all_links, links_in, AreBound, AreLinksIn};
ghost use Rattle.depgraph.specs.Code.Waits.{no_entry};

use crate::entries::begin_in;
use crate::waiting::Wait;
use std::alloc::{AllocError, Global};

/// Stands for no entry.
const NO_ENTRY: u32 = u32::MAX;

/// What leads from the entry of a move to that of the move that it waits for, if both are made in
/// one step.
#[derive(Drop)]
pub(crate) struct Links<'a> {
    pub(crate) times: &'a [u16],
    pub(crate) ends: &'a [usize],
    pub(crate) waits: &'a [Wait],
    /// The entries whose links were taken away.
    taken: Vec<bool>,
}

impl<'a> Links<'a> {
    /// All links, by the times of the entries, where each agent's end, and what their moves wait
    /// for.
    pub(crate) fn new(
        alloc: Global,
        times: &'a [u16],
        ends: &'a [usize],
        waits: &'a [Wait],
    ) -> Result<Links<'a>, AllocError>
        requires { AreBound times.now ends.now waits.now }
        ensures times { IfOk result (λ l. l.times.now ≡ times.now) }
        ensures ends { IfOk result (λ l. l.ends.now ≡ ends.now) }
        ensures waits { IfOk result (λ l. l.waits.now ≡ waits.now) }
        ensures links { IfOk result (λ l. links_in l ≡ all_links times.now ends.now waits.now) }
        ensures whole { IfOk result (λ l. AreLinksIn l) }
    {
        Ok(Links {
            times,
            ends,
            waits,
            taken: vec![in alloc; false; waits.len()]?,
        })
    }

    /// The entry to which an entry's link leads, or `NO_ENTRY` where it has none or it was taken
    /// away.
    #[inline(always)]
    fn of(&self, entry: u32) -> u32
        requires whole { AreLinksIn self.now }
        requires entry { entry < length (links_in self.now) }
        ensures { result ≡ get_or (links_in self.now) entry 0 }
    {
        let index = entry as usize;
        if self.taken[index] {
            NO_ENTRY
        } else {
            self.link(index)
        }
    }

    /// Takes the link of an entry away. Gives the entry to which it led, or `NO_ENTRY` where there
    /// was none.
    fn take(&mut self, entry: u32) -> u32
        requires whole { AreLinksIn self.old }
        requires entry { entry < length (links_in self.old) }
        ensures link { result ≡ get_or (links_in self.old) entry 0 }
        ensures taken { links_in self.new ≡ set (links_in self.old) entry no_entry }
        ensures whole { AreLinksIn self.new }
    {
        let next = self.of(entry);
        self.taken[entry as usize] = true;
        next
    }

    /// The entry of the move that an entry's move waits for, or `NO_ENTRY`.
    fn link(&self, index: usize) -> u32
        requires whole { AreLinksIn self.now }
        requires index { index < length self.now.times.now }
        ensures { result ≡ link_of self.now.times.now self.now.ends.now self.now.waits.now index }
    {
        let wait = self.waits[index];
        if wait.count == 0 {
            return NO_ENTRY;
        }
        let next = begin_in(self.ends, usize::from(wait.agent)) + usize::from(wait.count);
        if self.times[next] == self.times[index] {
            next as u32
        } else {
            NO_ENTRY
        }
    }
}

/// Walks from an entry to the one to which its link leads and on, taking the links away, until it
/// is back or there is no link: each link is walked once, and a cycle is found from its least
/// entry. Answers whether it came back; the trail has those that it passed.
pub(crate) fn walk(
    first: u32,
    links: &mut Links<'_>,
    trail: &mut Vec<u32>,
) -> Result<bool, AllocError>
    requires whole { AreLinksIn links.old }
    requires links { AreLinks (links_in links.old) }
    requires first { first < length (links_in links.old) }
    requires least { (i j : ℕ) → LinksTo (links_in links.old) i j → first ≤ i }
    requires trail { trail.old.items ≡ [] }
    ensures walked { IfOk result
        (λ found. IsCycleWalked first (links_in links.old) (links_in links.new) trail.new.items
        (IsTrue found)) }
    ensures whole { AreLinksIn links.new }
{
    // Of most moves none leads on: they wait for nobody, or for a move of another step.
    if links.of(first) == NO_ENTRY {
        return Ok(false);
    }
    let mut entry = first;
    'entries: loop {
        trail.push(entry)?;
        let next = links.take(entry);
        if next == first {
            return Ok(true);
        }
        if next == NO_ENTRY {
            return Ok(false);
        }
        entry = next;
    }
}
