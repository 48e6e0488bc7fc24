//! The places from which no step was taken yet.
ghost use Rattle.std.specs.Prelude.{◌≡◌, ◌<◌, ◌⊎◌, IfOk, IfSome, Some};
ghost use Rattle.least_steps.specs.Code.Waiting.{IsPlaceAmong, IsInBucket, IsSame, IsOpenPlace};

use crate::distance::distance;
use grid::Cell;
use std::alloc::{AllocError, Global};
use std::mem;
use walks::{STRAIGHT, put_last};

/// A bucket is as wide as this number, which is less than a step's.
const BUCKET_WIDTH: u64 = 4_194_304;

/// More buckets than a step leads on: it adds two diagonal steps at most to the least number of a
/// walk.
const BUCKET_COUNT: usize = 8;

/// A cell, the number that it had when it was put here, and the step that led there.
#[derive(Clone, Copy, Debug)]
pub(crate) struct Open {
    pub(crate) number: u64,
    pub(crate) cell: Cell,
    pub(crate) by: u32,
}

/// Whither a search goes on.
#[derive(Clone, Copy, PartialEq, Eq)]
pub(crate) enum Course {
    /// Toward the goal: the places are in buckets by the least number that a walk through them can
    /// have, and those of the bucket at hand are taken from the end, so that one walk is followed
    /// as long as that helps.
    Toward,
    /// In all directions: the places are in waves by their numbers, each as wide as a straight
    /// step. It leads from one into the next, and a diagonal one into that or the one after it.
    Around,
}

/// Open places.
#[derive(Debug, Drop)]
pub(crate) struct OpenList {
    pub(crate) now: Vec<Open>,
    pub(crate) next: Vec<Open>,
    pub(crate) later: Vec<Open>,
    pub(crate) buckets: [Vec<Open>; BUCKET_COUNT],
    goal: Cell,
    aslant: bool,
    at_hand: u64,
    later_from: u64,
}

impl OpenList {
    pub(crate) fn new(alloc: Global) -> OpenList {
        OpenList {
            now: Vec::new(alloc),
            next: Vec::new(alloc),
            later: Vec::new(alloc),
            buckets: [
                Vec::new(alloc),
                Vec::new(alloc),
                Vec::new(alloc),
                Vec::new(alloc),
                Vec::new(alloc),
                Vec::new(alloc),
                Vec::new(alloc),
                Vec::new(alloc),
            ],
            goal: Cell { x: 0, y: 0 },
            aslant: false,
            at_hand: 0,
            later_from: 0,
        }
    }

    /// Nothing waits, on the way from a start to a goal.
    pub(crate) fn begin(&mut self, start: Cell, goal: Cell, aslant: bool)
        ensures { (p : Open) → IsOpenPlace self.new p → ⊥ }
    {
        self.now.clear();
        self.next.clear();
        self.later.clear();
        clear(&mut self.buckets);
        self.goal = goal;
        self.aslant = aslant;
        self.at_hand = (STRAIGHT + distance(aslant, goal, start)) / BUCKET_WIDTH;
        self.later_from = 2 * STRAIGHT;
    }

    /// The least number that a walk through a place can have.
    #[inline(always)]
    pub(crate) fn least_through(&self, place: Open) -> u64 {
        place
            .number
            .saturating_add(distance(self.aslant, self.goal, place.cell))
    }

    #[inline(always)]
    pub(crate) fn push(&mut self, place: Open, course: Course) -> Result<(), AllocError>
        ensures keeps { (p : Open) → IsOpenPlace self.old p → IsOpenPlace self.new p }
        ensures only { (p : Open) → IsOpenPlace self.new p → IsOpenPlace self.old p ⊎ (p ≡ place) }
        ensures has { IfOk result (λ _. IsOpenPlace self.new place) }
    {
        match course {
            Course::Toward => {
                let bucket = self.least_through(place) / BUCKET_WIDTH;
                if bucket == self.at_hand {
                    put_last(&mut self.now, place)
                } else {
                    put_last(&mut self.buckets[bucket_of(bucket)], place)
                }
            }
            Course::Around => {
                if place.number < self.later_from {
                    put_last(&mut self.next, place)
                } else {
                    put_last(&mut self.later, place)
                }
            }
        }
    }

    /// The place of the bucket at hand that came last.
    #[inline(always)]
    pub(crate) fn pop(&mut self) -> Option<Open>
        ensures keeps { (p : Open) → IsOpenPlace self.old p → IsOpenPlace self.new p
            ⊎ (result ≡ Some p) }
        ensures only { (p : Open) → IsOpenPlace self.new p → IsOpenPlace self.old p }
        ensures some { IfSome result (IsOpenPlace self.old) }
    {
        self.now.pop()
    }

    /// Makes the next bucket the one at hand, once this one is empty. The answer is whether a walk
    /// through a place that waits may have a lesser number than the one that was found.
    pub(crate) fn next_bucket(&mut self, found: Option<u64>) -> bool
        ensures { IsSame self.old self.new }
    {
        let is_past = match found {
            Some(number) => number / BUCKET_WIDTH <= self.at_hand,
            None => false,
        };
        self.at_hand = self.at_hand.saturating_add(1);
        let bucket = &mut self.buckets[bucket_of(self.at_hand)];
        mem::swap(bucket, &mut self.now);
        !is_past && (!self.now.is_empty() || self.buckets.iter().any(|bucket| !bucket.is_empty()))
    }

    /// Whether walks through the bucket at hand are more than twice as long as the least that is to
    /// be thought of. Then a search in all directions is quicker.
    pub(crate) fn is_astray(&self, start: Cell) -> bool {
        let least = STRAIGHT + distance(self.aslant, self.goal, start);
        self.at_hand.saturating_mul(BUCKET_WIDTH) > 2 * least
    }

    /// Makes the next wave the one at hand.
    pub(crate) fn next_wave(&mut self, wave: &mut Vec<Open>)
        ensures keeps { (p : Open) → IsOpenPlace self.old p → IsOpenPlace self.new p
            ⊎ IsPlaceAmong wave.new.items p }
        ensures only { (p : Open) → IsOpenPlace self.new p → IsOpenPlace self.old p }
        ensures wave { (p : Open) → IsPlaceAmong wave.new.items p → IsOpenPlace self.old p }
    {
        wave.clear();
        mem::swap(wave, &mut self.next);
        mem::swap(&mut self.next, &mut self.later);
        self.later_from = self.later_from.saturating_add(STRAIGHT);
    }

    /// Whether a walk through a place that waits may have a lesser number than the one that was
    /// found.
    pub(crate) fn has_waves(&self, found: Option<u64>) -> bool {
        let is_past = match found {
            Some(number) => number.saturating_add(STRAIGHT) <= self.later_from,
            None => false,
        };
        !is_past && !(self.next.is_empty() && self.later.is_empty())
    }
}

fn clear(buckets: &mut [Vec<Open>])
    ensures { (p : Open) → IsInBucket buckets.new p → ⊥ }
{
    for bucket in buckets.iter_mut() {
        bucket.clear();
    }
}

#[inline(always)]
fn bucket_of(number: u64) -> usize
    ensures { result < 8 }
{
    number as usize % BUCKET_COUNT
}
