//! The cells that a search in all directions goes on from, in buckets of keys.
use crate::front::Front;
use crate::keys::Key;
use crate::room::put_last;
use grid::Cell;
use std::alloc::{AllocError, Global};
use std::mem;

/// The cells whose keys may still fall. A bucket is as wide as a straight step, which leads from
/// the bucket at hand into the next one; a diagonal step leads into that or the one after it. So no
/// step lowers a key of the bucket at hand.
#[derive(Drop)]
pub(crate) struct Wave {
    next: Vec<Cell>,
    later: Vec<Cell>,
    later_from: u64,
}

impl Wave {
    /// The start is in the first bucket that will be at hand.
    pub(crate) fn from_start(alloc: Global, start: Cell) -> Result<Wave, AllocError> {
        Ok(Wave {
            next: vec![in alloc; start]?,
            later: Vec::new(alloc),
            later_from: 0,
        })
    }

    /// Makes the next bucket the one at hand, and answers whether all is done. The bucket two after
    /// it begins with a key.
    pub(crate) fn advance(&mut self, now: &mut Vec<Cell>, later_from: u64) -> bool {
        now.clear();
        mem::swap(now, &mut self.next);
        mem::swap(&mut self.next, &mut self.later);
        self.later_from = later_from;
        now.is_empty() && self.next.is_empty()
    }
}

impl Front for Wave {
    #[inline(always)]
    fn push(&mut self, cell: Cell, old: Key, new: Key) -> Result<(), AllocError> {
        if !new.is_from(self.later_from) {
            if old.is_from(self.later_from) {
                put_last(&mut self.next, cell)?;
            }
        } else if old.is_unreached() {
            put_last(&mut self.later, cell)?;
        }
        Ok(())
    }
}
