//! The line of an agent.
ghost use Rattle.std.specs.Prelude.{◌≡◌, ℕ, ◌<◌, ◌≤◌, ◌⊎◌, ◌==◌};
ghost use Rattle.std.specs.Prelude.{suc, true, false, IsTrue, List, []};
ghost use Rattle.std.specs.Prelude.{◌∷◌, length, map, IfOk, MatchOption, MatchResult};
ghost use Rattle.std.specs.List.{list_all, prefix_len, slice_split};
ghost use Rattle.text_io.specs.Text.{space};
ghost use Rattle.text_io.specs.Reading.{at_line_feed};
ghost use Rattle.text_io.specs.Numerals.{IsNumeral};
ghost use Rattle.plan_text.specs.PlanText.{SpellsCourse};
ghost use Rattle.plan_text.specs.PlanTextFault.{agent_due, longest_plan_line, HasParts};
ghost use Rattle.plan_text.specs.PlanTextFault.{IsCoordinate, is_act, HasPlanTextFault};
ghost use Rattle.plan_text.specs.Code.PlanLines.{act_by};
ghost use Rattle.plan_text.specs.declared.plan_text_fault.PlanTextFault.TheVariants.{OutOfMemory as out_of_memory};

use crate::PlanTextFault;
use grid::Cell;
use memchr::memchr;
use model::Act;
use std::alloc::{AllocError, Global};
use text_io::saturated_numeral;

/// An agent's start and acts, from its line.
pub(crate) fn read_agent(
    alloc: Global,
    line: &[u8],
    number: u64,
) -> Result<(Cell, Vec<Act>), PlanTextFault>
    requires { length line.now ≤ longest_plan_line }
    ensures { MatchResult result
        (λ agent. SpellsCourse (record { start = agent.0; acts = agent.1.items }) line.now)
        (λ fault. (fault ≡ out_of_memory)
        ⊎ ((left before : ℕ)
        → HasPlanTextFault fault at_line_feed (agent_due (suc left) before) number line.now)) }
{
    let Some(parts) = Parts::from_line(line) else {
        return Err(PlanTextFault::BadAgent(number));
    };
    let Some(start) = parts.start() else {
        return Err(PlanTextFault::BadNumber(number));
    };
    if parts.acts == b"=".as_slice() {
        return Ok((start, Vec::new(alloc)));
    }
    if let Some(place) = other_place(parts.acts) {
        let column = line.len() - parts.acts.len() + place + 1;
        return Err(PlanTextFault::BadAct(number, column as u32));
    }
    Ok((start, acts_of(alloc, parts.acts)?))
}

/// What stands behind `agent` and its space, cut at each space.
#[derive(Clone, Copy)]
struct Parts<'a> {
    x: &'a [u8],
    y: &'a [u8],
    acts: &'a [u8],
}

impl<'a> Parts<'a> {
    /// The parts of a line that has so many, none of them empty.
    fn from_line(line: &'a [u8]) -> Option<Parts<'a>>
        ensures { MatchOption result ((x y acts : List ℕ) → HasParts x y acts line.now → ⊥)
            (λ p. HasParts p.x.now p.y.now p.acts.now line.now) }
    {
        let (word, rest) = cut(line)?;
        let (x, rest) = cut(rest)?;
        let (y, acts) = cut(rest)?;
        if word != b"agent".as_slice()
            || x.is_empty()
            || y.is_empty()
            || acts.is_empty()
            || cut(acts).is_some()
        {
            return None;
        }
        Some(Parts { x, y, acts })
    }

    fn start(&self) -> Option<Cell>
        ensures { MatchOption result ((IsCoordinate self.now.x.now → ⊥)
            ⊎ (IsCoordinate self.now.y.now → ⊥))
            (λ cell. IsNumeral cell.x self.now.x.now × IsNumeral cell.y self.now.y.now) }
    {
        Some(Cell {
            x: coordinate(self.x)?,
            y: coordinate(self.y)?,
        })
    }
}

/// What stands before the first space, and what behind it.
fn cut(bytes: &[u8]) -> Option<(&[u8], &[u8])>
    ensures { MatchOption result (slice_split (λ b. b == space) bytes.now ≡ bytes.now ∷ [])
        (λ p. slice_split (λ b. b == space) bytes.now
        ≡ p.0.now ∷ slice_split (λ b. b == space) p.1.now) }
{
    let place = memchr(b' ', bytes)?;
    Some((&bytes[..place], &bytes[place + 1..]))
}

/// A column or a row.
fn coordinate(digits: &[u8]) -> Option<u16>
    ensures { MatchOption result (IsCoordinate digits.now → ⊥) (λ n. IsNumeral n digits.now) }
{
    match saturated_numeral(digits) {
        Some(value) if value <= 65_535 => Some(value as u16),
        _ => None,
    }
}

/// Where the first byte stands that is no act.
fn other_place(bytes: &[u8]) -> Option<usize>
    ensures { MatchOption result (IsTrue (list_all is_act bytes.now))
        (λ i. (list_all is_act bytes.now ≡ false) × (i ≡ prefix_len is_act bytes.now)
        × (i < length bytes.now)) }
{
    if are_acts(bytes) {
        return None;
    }
    for (i, b) in bytes.iter().enumerate() {
        if !is_act(*b) {
            return Some(i);
        }
    }
    None
}

/// Whether all bytes are acts. It goes on behind one that is none, so that many bytes can be judged
/// at once.
fn are_acts(bytes: &[u8]) -> bool
    ensures { result ≡ list_all is_act bytes.now }
{
    let mut are_acts = true;
    for b in bytes {
        are_acts &= is_act(*b);
    }
    are_acts
}

/// Whether the byte is an act. It asks for each act by itself, without a branch.
fn is_act(b: u8) -> bool
    ensures { result ≡ is_act b }
{
    (b == b'n') | (b == b'e') | (b == b's') | (b == b'w') | (b == b'-')
}

/// The acts of characters that each stand for one.
fn acts_of(alloc: Global, characters: &[u8]) -> Result<Vec<Act>, AllocError>
    ensures { IfOk result (λ acts. acts.items ≡ map act_by characters.now) }
{
    // There is room from the start, so that many characters can be turned into acts at once.
    let mut acts = vec![in alloc; Act::Wait; characters.len()]?;
    for (i, b) in characters.iter().enumerate() {
        acts[i] = act_by(*b);
    }
    Ok(acts)
}

/// The act of its character. It asks for each act by itself: which one comes can't be foreseen, and
/// a choice between all of them would become a jump.
fn act_by(b: u8) -> Act
    ensures { result ≡ act_by b }
{
    let mut act = Act::Wait;
    if b == b'n' {
        act = Act::N;
    }
    if b == b'e' {
        act = Act::E;
    }
    if b == b's' {
        act = Act::S;
    }
    if b == b'w' {
        act = Act::W;
    }
    act
}
