//! The cells that a search toward its goal goes on from, in buckets of the least lengths of walks
//! through them.
use crate::distance::octile_distance;
use crate::front::Front;
use crate::keys::Key;
use crate::room::put_last;
use grid::Cell;
use std::alloc::{AllocError, Global};

/// A bucket is as wide as this number. A step adds at most two diagonal steps to the least length
/// of a walk, so it leads at most five buckets on.
const BUCKET_WIDTH: u64 = 4_194_304;

/// More buckets than a step leads on.
const BUCKET_COUNT: u64 = 8;

/// A cell, and the key that it had when it was put into a bucket.
#[derive(Clone, Copy)]
pub(crate) struct Open {
    pub(crate) key: Key,
    pub(crate) cell: Cell,
}

#[derive(Drop)]
struct Bucket {
    cells: Vec<Open>,
}

/// The cells whose keys fell, by the number of the least length that a walk through them can have:
/// their key and the distance to the goal.
#[derive(Drop)]
pub(crate) struct Heading {
    buckets: Vec<Bucket>,
    goal: Cell,
    at_hand: u64,
    waiting: u64,
}

impl Heading {
    /// The start alone, in the bucket at hand.
    pub(crate) fn from_start(
        alloc: Global,
        start: Open,
        goal: Cell,
    ) -> Result<Heading, AllocError> {
        let mut buckets = Vec::new(alloc);
        for _ in 0..BUCKET_COUNT {
            buckets
                .push(Bucket {
                    cells: Vec::new(alloc),
                })
                .map_err(AllocError::from)?;
        }
        let mut heading = Heading {
            buckets,
            goal,
            at_hand: least_through(start.cell, start.key, goal) / BUCKET_WIDTH,
            waiting: 0,
        };
        heading.push(start.cell, start.key, start.key)?;
        Ok(heading)
    }

    /// The cell of the bucket at hand that came last.
    #[inline(always)]
    pub(crate) fn pop(&mut self) -> Option<Open> {
        let number = bucket_of(self.at_hand);
        let open = self.buckets.get_mut(number)?.cells.pop()?;
        self.waiting = self.waiting.saturating_sub(1);
        Some(open)
    }

    /// Whether no walk through a cell that waits is shorter than a number, once the bucket at hand
    /// is empty.
    pub(crate) fn is_past(&self, number: u64) -> bool {
        self.waiting == 0 || number / BUCKET_WIDTH <= self.at_hand
    }

    /// Makes the next bucket the one at hand, and answers the least number that it is for.
    pub(crate) fn advance(&mut self) -> u64 {
        self.at_hand = self.at_hand.saturating_add(1);
        self.at_hand.saturating_mul(BUCKET_WIDTH)
    }
}

impl Front for Heading {
    #[inline(always)]
    fn push(&mut self, cell: Cell, _old: Key, new: Key) -> Result<(), AllocError> {
        let number = bucket_of(least_through(cell, new, self.goal) / BUCKET_WIDTH);
        if let Some(bucket) = self.buckets.get_mut(number) {
            put_last(&mut bucket.cells, Open { key: new, cell })?;
            self.waiting = self.waiting.saturating_add(1);
        }
        Ok(())
    }
}

/// The number of the least length that a walk through a cell of this key can have.
#[inline(always)]
pub(crate) fn least_through(cell: Cell, key: Key, goal: Cell) -> u64 {
    key.number_after(octile_distance(goal, u64::from(cell.x), u64::from(cell.y)))
}

#[inline(always)]
fn bucket_of(number: u64) -> usize {
    (number % BUCKET_COUNT) as usize
}
