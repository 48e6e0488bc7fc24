//! The states from which a search went on.
ghost use Rattle.std.specs.Prelude.{◌≡◌, ◌<◌, ◌≤◌, ℕ, IfErr, IfOk, Some, slice_get};
ghost use Rattle.least_costs.specs.declared.states.Slot.{Slot as slot_type};

use grid::Cell;
use std::alloc::{AllocError, Global};
use std::marker::Model;
use walks::put_last;

/// So many slots there are at first: a power of two.
const FIRST_SLOTS: usize = 1024;

/// Where a walk may be at a time, and the place among the closed states of the one before it;
/// `None` where it has come as the walk that was known.
#[derive(Clone, Copy, Debug)]
pub(crate) struct State {
    pub(crate) cell: Cell,
    pub(crate) time: u32,
    pub(crate) from: Option<u32>,
}

/// That a state in the cell at the time is closed, in a search whose number is `turn`.
#[derive(Clone, Copy, Debug)]
struct Slot {
    cell: Cell,
    time: u32,
    turn: u32,
}

const EMPTY: Slot = Slot {
    cell: Cell { x: 0, y: 0 },
    time: 0,
    turn: 0,
};

/// What a look for a state says.
#[derive(Clone, Copy)]
enum Found {
    Closed,
    /// It isn't closed, and would stand here.
    Free(usize),
}

/// The closed states of a search, each cell and time once. Each has a slot, at the place that its
/// cell and time give or behind it; of the slots half are free at least. Those of searches before
/// have another turn: none is cleared.
#[derive(Debug, Drop)]
pub(crate) struct ClosedStates {
    alloc: Global,
    states: Vec<State>,
    slots: Vec<Slot>,
    turn: u32,
}

impl Model for ClosedStates {
    ghost use Rattle.least_costs.specs.declared.states.State.{State};
    ghost use Rattle.std.specs.Prelude.{List};
    ghost use Rattle.least_costs.specs.Code.Slots.{AreSlots};

    ghost Value = { List State };

    ghost view = { λ c. c.states.items };

    ghost invariant = { λ c. AreSlots c.turn c.slots.items c.states.items };
}

impl ClosedStates {
    ghost use Rattle.std.specs.Prelude.{◌≡◌, ◌++◌, ◌∷◌, [], true, false, IfOk, length};
    ghost use Rattle.least_costs.specs.Code.States.{HasState};

    pub(crate) fn new(alloc: Global) -> ClosedStates
        ensures { result ≡ [] }
    {
        ClosedStates {
            alloc,
            states: Vec::new(alloc),
            slots: Vec::new(alloc),
            turn: 0,
        }
    }

    /// Begins another search: no state is closed.
    pub(crate) fn clear(&mut self) -> Result<(), AllocError>
        ensures { IfOk result (λ _. self.new ≡ []) }
    {
        let turn = next_turn(self.alloc, &mut self.slots, self.turn)?;
        self.states.clear();
        self.turn = turn;
        Ok(())
    }

    pub(crate) fn count(&self) -> usize
        ensures { result ≡ length self.now }
    {
        self.states.len()
    }

    pub(crate) fn as_slice(&self) -> &[State]
        ensures { result.now ≡ self.now }
    {
        &self.states
    }

    /// Closes a state, unless one in its cell at its time is closed. The answer is whether none
    /// was.
    #[inline(always)]
    pub(crate) fn add(&mut self, state: State) -> Result<bool, AllocError>
        ensures new { IfOk result (λ is_new. is_new ≡ true → self.new ≡ self.old ++ state ∷ []) }
        ensures old { IfOk result (λ is_new. is_new ≡ false → (self.new ≡ self.old)
            × HasState self.old state.cell state.time) }
    {
        match self.look(state.cell, state.time) {
            Found::Closed => Ok(false),
            Found::Free(at) => {
                put_last(&mut self.states, state)?;
                self.put_slot(at, state);
                let slots = self.slots.len();
                if self.states.len() > slots / 2 {
                    self.take_slots(slots.saturating_mul(2))?;
                }
                Ok(true)
            }
        }
    }

    /// Looks for a state.
    #[inline(always)]
    fn look(&self, cell: Cell, time: u32) -> Found
        ensures { result ≡ Found.Closed → HasState self.now cell time }
    {
        let mask = self.slots.len().saturating_sub(1);
        let mut at = mixed(cell, time) & mask;
        for _ in 0..self.slots.len() {
            match self.slots.get(at) {
                Some(slot) if slot.turn == self.turn => {
                    if slot.cell == cell && slot.time == time {
                        return Found::Closed;
                    }
                }
                _ => break,
            }
            at = at.wrapping_add(1) & mask;
        }
        Found::Free(at)
    }

    /// Gives a closed state a slot.
    #[inline(always)]
    fn put_slot(&mut self, at: usize, state: State)
        requires { HasState self.old state.cell state.time }
        ensures { self.new ≡ self.old }
    {
        if at < self.slots.len() {
            self.slots[at] = Slot {
                cell: state.cell,
                time: state.time,
                turn: self.turn,
            };
        }
    }

    /// Makes so many slots, and gives each closed state one.
    #[inline(never)]
    fn take_slots(&mut self, count: usize) -> Result<(), AllocError>
        ensures { IfOk result (λ _. self.new ≡ self.old) }
    {
        let slots = fresh_slots(self.alloc, count)?;
        self.slots = slots;
        self.turn = 1;
        for place in 0..self.states.len() {
            let state = self.states[place];
            if let Found::Free(at) = self.look(state.cell, state.time) {
                self.put_slot(at, state);
            }
        }
        Ok(())
    }
}

/// A turn past all others. At first, and once in very many, the slots are made anew.
fn next_turn(alloc: Global, slots: &mut Vec<Slot>, last: u32) -> Result<u32, AllocError>
    requires { (k : ℕ) (s : slot_type) → slice_get slots.old.items k ≡ Some s → s.turn ≤ last }
    ensures next { IfOk result (λ turn. (k : ℕ) (s : slot_type)
        → slice_get slots.new.items k ≡ Some s → s.turn < turn) }
    ensures same { IfErr result (λ _. slots.new ≡ slots.old) }
{
    if last < u32::MAX && !slots.is_empty() {
        return Ok(last + 1);
    }
    let fresh = fresh_slots(alloc, FIRST_SLOTS)?;
    *slots = fresh;
    Ok(1)
}

/// So many slots that no search has taken.
fn fresh_slots(alloc: Global, count: usize) -> Result<Vec<Slot>, AllocError>
    ensures { IfOk result (λ slots. (k : ℕ) (s : slot_type) → slice_get slots.items k ≡ Some s
        → s.turn ≡ 0) }
{
    let slots = vec![in alloc; EMPTY; count]?;
    Ok(slots)
}

/// A number in which each bit of a cell and a time has its part.
#[inline(always)]
fn mixed(cell: Cell, time: u32) -> usize {
    let sum = u64::from(cell.x)
        .wrapping_add(u64::from(cell.y).wrapping_mul(65_599))
        .wrapping_add(u64::from(time).wrapping_mul(4_303_228_801));
    (sum.wrapping_mul(0x9e37_79b9_7f4a_7c15) >> 32) as usize
}
