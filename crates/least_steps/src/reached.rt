//! All that a search has reached, and what is known of it at any time.
ghost use Rattle.std.specs.Prelude.{◌≡◌, ℕ, ◌^◌, ◌<◌, ◌≤◌, ◌↔◌, IfOk, IsTrue, false};
ghost use Rattle.grid.specs.Map.{IsMap};
ghost use Rattle.walks.specs.Walk.{IsOn};
ghost use Rattle.least_steps.specs.Code.Exploring.{Comes, Has, IsNumberOf, Lowers};
ghost use Rattle.least_steps.specs.Code.Reaching.{IsAbove, IsFound, number_in};
ghost use Rattle.least_steps.specs.Code.Steps.{AreLegal};

use crate::joining::number_of;
use crate::open_list::Open;
use crate::steps::legal_steps;
use grid::{Cell, Map};
use std::alloc::{AllocError, Global};
use std::marker::Model;

/// No walk on a map has a number as great, with one step more.
const NUMBER_LIMIT: u64 = 1 << 45;

/// The base of marks when none was made yet.
const GREATEST_BASE: u64 = 1 << 63;

/// The cells that a search from a start has reached, with diagonal steps or without. The mark of a
/// cell is the number of a walk to it, and a base that is so much less for each search that marks
/// of those before it compare as if no walk led there: nothing of the map's size is cleared.
/// `legal` has the legal steps from each cell, once they were asked for.
#[derive(Debug, Drop)]
pub(crate) struct Reached<'a> {
    map: &'a Map,
    aslant: bool,
    start: Cell,
    base: u64,
    marks: Vec<u64>,
    legal: Vec<u8>,
}

impl<'a> Model for Reached<'a> {
    ghost use Rattle.least_steps.specs.Code.Exploring.{Exploration, IsExploration};

    ghost Value = { Exploration };

    ghost view = { λ r. record {
      map = r.map.now;
      aslant = r.aslant;
      start = r.start;
      base = r.base;
      marks = r.marks.items;
    } };

    ghost invariant = { λ r. IsExploration r.map.now r.aslant r.start r.base r.marks.items r.legal.items };
}

impl<'a> Reached<'a> {
    /// Nothing is reached yet.
    pub(crate) fn new(alloc: Global, map: &'a Map) -> Result<Reached<'a>, AllocError>
        ensures { IfOk result (λ r. r.map ≡ map.now) }
    {
        let cells = map.width() as usize * map.height() as usize;
        Ok(Reached {
            map,
            aslant: false,
            start: Cell { x: 0, y: 0 },
            base: GREATEST_BASE,
            marks: vec![in alloc; u64::MAX; cells]?,
            legal: vec![in alloc; 0u8; cells]?,
        })
    }

    #[inline(always)]
    pub(crate) fn map(&self) -> &'a Map
        ensures now { result.now ≡ self.now.map }
        ensures map { IsMap self.now.map }
    {
        self.map
    }

    /// Whether diagonal steps are taken.
    #[inline(always)]
    pub(crate) fn is_aslant(&self) -> bool
        ensures { result ≡ self.now.aslant }
    {
        self.aslant
    }

    /// Forgets what was reached, and begins at another start.
    pub(crate) fn begin(&mut self, start: Cell, aslant: bool)
        ensures map { self.new.map ≡ self.old.map }
        ensures start { self.new.start ≡ start }
        ensures aslant { self.new.aslant ≡ aslant }
        ensures above { (c : Cell) (n : ℕ) → IsOn self.new.map c → n < 2 ^ 45
            → IsAbove self.new.map self.new.base self.new.marks c n }
    {
        self.make_room();
        self.base -= NUMBER_LIMIT;
        self.start = start;
        self.aslant = aslant;
    }

    /// Makes all marks anew, where the base is too small for another search: once in very many.
    fn make_room(&mut self)
        ensures map { self.new.map ≡ self.old.map }
        ensures room { 2 ^ 45 ≤ self.new.base }
    {
        if self.base >= NUMBER_LIMIT {
            return;
        }
        self.marks.fill(u64::MAX);
        self.base = GREATEST_BASE;
    }

    /// The number of a walk to the cell, if one was found.
    #[inline(always)]
    pub(crate) fn number(&self, cell: Cell) -> Option<u64>
        requires { IsOn self.now.map cell }
        ensures found { IsFound self.now.map self.now.base self.now.marks cell result }
        ensures walks { (c : Cell) (n : ℕ) → IsOn self.now.map c → IsNumberOf self.now c n
            → Comes self.now c n }
    {
        let number = self.marks[number_of(self.map, cell)] - self.base;
        if number < NUMBER_LIMIT {
            Some(number)
        } else {
            None
        }
    }

    /// Whether the place still has its number.
    #[inline(always)]
    pub(crate) fn has(&self, place: Open) -> bool
        requires on { IsOn self.now.map place.cell }
        requires limit { place.number < 2 ^ 45 }
        ensures { IsTrue result ↔ IsNumberOf self.now place.cell place.number }
    {
        self.marks[number_of(self.map, place.cell)] - self.base == place.number
    }

    /// Whether no walk to the cell, whose mark is at this index, is known that has at most this
    /// number.
    #[inline(always)]
    pub(crate) fn is_above(&self, at: usize, cell: Cell, number: u64) -> bool
        requires at { at ≡ number_in self.now.map cell }
        requires on { IsOn self.now.map cell }
        requires limit { number < 2 ^ 45 }
        ensures yes { IsTrue result
            → IsAbove self.now.map self.now.base self.now.marks cell number }
        ensures no { result ≡ false → Has self.now cell number }
    {
        self.marks[at] > self.base + number
    }

    /// Keeps a lesser number of a cell.
    #[inline(always)]
    pub(crate) fn lower(&mut self, at: usize, cell: Cell, number: u64)
        requires at { at ≡ number_in self.old.map cell }
        requires comes { Comes self.old cell number }
        requires limit { number < 2 ^ 45 }
        requires above { IsAbove self.old.map self.old.base self.old.marks cell number }
        ensures { Lowers self.old self.new cell number }
    {
        self.marks[at] = self.base + number;
    }

    /// The legal steps from a cell, looked up in the map when they are first asked for.
    #[inline(always)]
    pub(crate) fn legal(&mut self, cell: Cell) -> u8
        requires { IsOn self.old.map cell }
        ensures same { self.new ≡ self.old }
        ensures legal { AreLegal self.old.map cell result }
    {
        let steps = self.legal[number_of(self.map, cell)];
        if steps > 0 {
            return steps;
        }
        self.learn(cell)
    }

    #[inline(never)]
    fn learn(&mut self, cell: Cell) -> u8
        requires { IsOn self.old.map cell }
        ensures same { self.new ≡ self.old }
        ensures legal { AreLegal self.old.map cell result }
    {
        let at = number_of(self.map, cell);
        let steps = legal_steps(self.map, cell);
        self.legal[at] = steps;
        steps
    }
}
