//! What each move waits for, found along the times: that whoever came into its cell last before it
//! has left.
ghost use Rattle.std.specs.Prelude.{◌≡◌, ◌≢◌, ◌+◌, ◌<◌, ◌≤◌, ◌^◌, ℕ};
ghost use Rattle.std.specs.Prelude.{length, get_or, slice_set as set, Some, None, IfOk, OnOk};
ghost use Rattle.depgraph.specs.declared.placing.Arrival.{Arrival};
ghost use Rattle.depgraph.specs.Code.Entries.{begin_in};
ghost use Rattle.depgraph.specs.Code.Following.{AreEntries, AreFollowed};
ghost use Rattle.depgraph.specs.Code.Meetings.{entry_by, noted, block_times, is_under_way};
ghost use Rattle.depgraph.specs.Code.Meetings.{AreMeetings, IsNextMeeting, AllComing, HasAll};
ghost use Rattle.depgraph.specs.Code.Meetings.{IsPassDone, ComesNextAt, AreAllUnderWay, AreAdded};
ghost use Rattle.depgraph.specs.Code.Meetings.{AreBlock, NobodyComes};
ghost use Rattle.depgraph.specs.Code.Waits.{no_wait};

use crate::entries::begin_in;
use crate::placing::Arrival;
use crate::sharing::shared_cells;
use crate::waiting::Wait;
use std::alloc::{AllocError, Global};
use std::marker::Model;

/// So many times make a block.
const BLOCK: usize = 32;

/// So many blocks have all times.
const BLOCKS: usize = 2048;

/// The entries of all paths, and which cells more than one agent comes into, by their numbers. Who
/// comes into others waits for nobody.
#[derive(Drop)]
pub(crate) struct Meetings<'a> {
    times: &'a [u16],
    ends: &'a [usize],
    numbers: &'a [u32],
    shared: Vec<bool>,
}

/// An agent, and the index in its path of the next cell into which others come too.
#[derive(Clone, Copy)]
pub(crate) struct Follower {
    agent: u16,
    index: u32,
}

/// An arrival, and the number of its cell.
#[derive(Clone, Copy)]
pub(crate) struct Coming {
    number: u32,
    arrival: Arrival,
}

/// Those who come into shared cells at one time, in any order.
#[derive(Drop)]
pub(crate) struct Comings {
    list: Vec<Coming>,
}

impl Model for Comings {
    ghost use Rattle.std.specs.Prelude.{List};
    ghost use Rattle.depgraph.specs.declared.following.Coming.{Coming as coming};

    ghost Value = { List coming };

    ghost view = { λ c. c.list.items };
}

impl Comings {
    ghost use Rattle.std.specs.Prelude.{[], ◌∷◌, ◌++◌};

    /// Nobody yet, and room for so many.
    fn with_room(alloc: Global, room: usize) -> Result<Comings, AllocError>
        ensures { IfOk result (λ c. c ≡ []) }
    {
        Ok(Comings {
            list: Vec::with_capacity(alloc, room)?,
        })
    }

    fn as_slice(&self) -> &[Coming]
        ensures { result.now ≡ self.now }
    {
        self.list.as_slice()
    }

    fn add(&mut self, coming: Coming) -> Result<(), AllocError>
        ensures { OnOk result (self.new ≡ self.old ++ coming ∷ []) }
    {
        self.list.push(coming).map_err(AllocError::from)
    }

    fn clear(&mut self)
        ensures { self.new ≡ [] }
    {
        self.list.clear();
    }
}

/// Who came last into each shared cell before a time, and what the moves so far wait for.
#[derive(Drop)]
pub(crate) struct Pass {
    time: usize,
    last: Vec<Option<Arrival>>,
    waits: Vec<Wait>,
}

impl Pass {
    /// Goes on to the next time, by all who come into shared cells at this one.
    fn take_step(&mut self, meetings: &Meetings<'_>, comings: &[Coming])
        requires meetings { AreMeetings meetings.now }
        requires limit { self.old.time < 2 ^ 32 }
        requires done { IsPassDone meetings.now self.old }
        requires sound { AllComing meetings.now self.old.time comings.now }
        requires all { HasAll meetings.now self.old.time comings.now }
        ensures done { IsPassDone meetings.now self.new }
        ensures time { self.new.time ≡ self.old.time + 1 }
    {
        for coming in comings {
            self.enter(meetings.ends, *coming);
        }
        self.time += 1;
    }

    /// Notes what the move into a cell waits for, and who came last into the cell now.
    fn enter(&mut self, ends: &[usize], coming: Coming)
        requires agent { coming.arrival.agent < length ends.now }
        requires number { coming.number < length self.old.last.items }
        requires entry { entry_by ends.now coming < length self.old.waits.items }
        requires left { (a : Arrival) → get_or self.old.last.items coming.number None ≡ Some a
            → (a.agent ≡ coming.arrival.agent → ⊥) → a.index + 1 < 2 ^ 16 }
        ensures time { self.new.time ≡ self.old.time }
        ensures last { self.new.last.items ≡ set self.old.last.items coming.number
            (Some coming.arrival) }
        ensures count { length self.new.waits.items ≡ length self.old.waits.items }
        ensures own { get_or self.new.waits.items (entry_by ends.now coming) no_wait
            ≡ noted coming.arrival.agent (get_or self.old.last.items coming.number None)
            (get_or self.old.waits.items (entry_by ends.now coming) no_wait) }
        ensures others { (e : ℕ) → e ≢ entry_by ends.now coming
            → get_or self.new.waits.items e no_wait ≡ get_or self.old.waits.items e no_wait }
    {
        let Coming { number, arrival } = coming;
        if let Some(before) = self.last[number as usize] {
            if before.agent != arrival.agent {
                let begin = begin_in(ends, usize::from(arrival.agent));
                self.waits[begin + usize::from(arrival.index)] = Wait {
                    agent: before.agent,
                    count: before.index + 1,
                };
            }
        }
        self.last[number as usize] = Some(arrival);
    }
}

/// What the moves into all entries wait for, by the entries' times, and the numbers of their cells,
/// which are below a limit.
pub(crate) fn waits_by_time(
    alloc: Global,
    times: &[u16],
    ends: &[usize],
    numbers: &[u32],
    limit: usize,
) -> Result<Vec<Wait>, AllocError>
    requires { AreEntries times.now ends.now numbers.now limit }
    ensures { IfOk result (λ w. AreFollowed times.now ends.now numbers.now w.items) }
{
    let meetings = Meetings {
        times,
        ends,
        numbers,
        shared: shared_cells(alloc, times, ends, numbers, limit)?,
    };
    let mut pass = Pass {
        time: 0,
        last: vec![in alloc; None; limit]?,
        waits: vec![in alloc; Wait { agent: 0, count: 0 }; times.len()]?,
    };
    follow(alloc, &meetings, &mut pass)?;
    Ok(pass.waits)
}

/// Follows all agents to the ends of their paths.
fn follow(alloc: Global, meetings: &Meetings<'_>, pass: &mut Pass) -> Result<(), AllocError>
    requires meetings { AreMeetings meetings.now }
    requires start { pass.old.time ≡ 0 }
    requires done { IsPassDone meetings.now pass.old }
    ensures done { OnOk result (IsPassDone meetings.now pass.new) }
    ensures end { OnOk result (NobodyComes meetings.now pass.new.time) }
{
    let mut followers = all_followers(alloc, meetings)?;
    let mut block = empty_block(alloc, followers.len())?;
    for number in 0..BLOCKS {
        let time = number * BLOCK;
        keep_under_way(meetings, time, &mut followers);
        if followers.is_empty() {
            return Ok(());
        }
        gather(meetings, time, &mut followers, &mut block)?;
        for step in 0..BLOCK {
            pass.take_step(meetings, block[step].as_slice());
        }
    }
    Ok(())
}

/// All agents, before their first shared cells.
fn all_followers(alloc: Global, meetings: &Meetings<'_>) -> Result<Vec<Follower>, AllocError>
    requires { AreMeetings meetings.now }
    ensures { IfOk result (λ f. AreAllUnderWay meetings.now 0 f.items) }
{
    let mut followers = Vec::with_capacity(alloc, meetings.ends.len())?;
    for agent in 0..meetings.ends.len() {
        let begin = begin_in(meetings.ends, agent);
        let next = next_meeting(meetings, begin, meetings.ends[agent]);
        followers.push(Follower {
            agent: agent as u16,
            index: (next - begin) as u32,
        })?;
    }
    Ok(followers)
}

/// Nobody comes yet. No more come at one time than there are agents, so that no list grows.
fn empty_block(alloc: Global, agents: usize) -> Result<Vec<Comings>, AllocError>
    ensures { IfOk result (λ block. length block.items ≡ block_times) }
{
    let mut block = Vec::with_capacity(alloc, BLOCK)?;
    for _step in 0..BLOCK {
        block.push(Comings::with_room(alloc, agents)?)?;
    }
    Ok(block)
}

/// Keeps the agents that come into shared cells from a time on.
fn keep_under_way(meetings: &Meetings<'_>, time: usize, followers: &mut Vec<Follower>)
    requires meetings { AreMeetings meetings.now }
    requires all { AreAllUnderWay meetings.now time followers.old.items }
    ensures { AreAllUnderWay meetings.now time followers.new.items }
{
    followers.retain(|follower| is_under_way(meetings.ends, follower));
}

/// Whether an agent comes into a cell yet.
fn is_under_way(ends: &[usize], follower: &Follower) -> bool
    ensures { result ≡ is_under_way ends.now follower.now }
{
    let agent = usize::from(follower.agent);
    agent < ends.len()
        && (follower.index as usize) < ends[agent].saturating_sub(begin_in(ends, agent))
}

/// Gathers those who come into shared cells at each time of the block from a time on, and takes
/// them past the block.
fn gather(
    meetings: &Meetings<'_>,
    time: usize,
    followers: &mut [Follower],
    block: &mut [Comings],
) -> Result<(), AllocError>
    requires meetings { AreMeetings meetings.now }
    requires limit { time < 2 ^ 32 }
    requires all { AreAllUnderWay meetings.now time followers.old }
    requires count { length block.old ≡ block_times }
    ensures all { OnOk result (AreAllUnderWay meetings.now (time + block_times) followers.new) }
    ensures block { OnOk result (AreBlock meetings.now time block.new) }
{
    for step in 0..BLOCK {
        block[step].clear();
    }
    for at in 0..followers.len() {
        look_ahead(meetings, time, &mut followers[at], block)?;
    }
    Ok(())
}

/// Adds where an agent comes into shared cells in the block from a time on, and takes it past the
/// block.
fn look_ahead(
    meetings: &Meetings<'_>,
    time: usize,
    follower: &mut Follower,
    block: &mut [Comings],
) -> Result<(), AllocError>
    requires meetings { AreMeetings meetings.now }
    requires limit { time < 2 ^ 32 }
    requires at { ComesNextAt meetings.now time follower.old }
    requires count { length block.old ≡ block_times }
    ensures agent { OnOk result (follower.new.agent ≡ follower.old.agent) }
    ensures at { OnOk result (ComesNextAt meetings.now (time + block_times) follower.new) }
    ensures added { OnOk result
        (AreAdded meetings.now time follower.old.agent block.old block.new) }
{
    let agent = follower.agent;
    let begin = begin_in(meetings.ends, usize::from(agent));
    let end = meetings.ends[usize::from(agent)];
    let mut entry = begin + follower.index as usize;
    while entry < end && usize::from(meetings.times[entry]) < time + BLOCK {
        let coming = Coming {
            number: meetings.numbers[entry],
            arrival: Arrival {
                agent,
                index: (entry - begin) as u16,
            },
        };
        block[usize::from(meetings.times[entry]) - time].add(coming)?;
        entry = next_meeting(meetings, entry + 1, end);
    }
    follower.index = (entry - begin) as u32;
    Ok(())
}

/// The first entry from one on that leads into a shared cell, or the last one's end where there is
/// none.
fn next_meeting(meetings: &Meetings<'_>, from: usize, end: usize) -> usize
    requires meetings { AreMeetings meetings.now }
    requires order { from ≤ end }
    requires within { from < end → end ≤ length meetings.now.times.now }
    ensures { IsNextMeeting meetings.now from end result }
{
    let mut entry = from;
    while entry < end && !meetings.shared[meetings.numbers[entry] as usize] {
        entry += 1;
    }
    entry
}
