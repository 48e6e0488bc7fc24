//! The steps of a walk, by its number.
ghost use Rattle.std.specs.Prelude.{◌≡◌, ℕ, ◌+◌, ◌*◌, ◌<◌, IfOk, IfSome};

use crate::step_fault::StepFault;
use scenario::Length;
use walks::{DIAGONAL, STRAIGHT};

/// Times `DIAGONAL` this is 1 above a multiple of `STRAIGHT`, so it reads the diagonal steps back
/// from a number.
const DIAGONAL_INVERSE: u64 = 3_880_899;

/// No length has a number as great. Below it no two lengths have one number.
const NUMBER_LIMIT: u64 = STRAIGHT * DIAGONAL;

/// How many straight steps a walk of this number has, if it has no others.
pub(crate) fn steps_of(number: u64) -> Result<u32, StepFault>
    ensures { IfOk result (λ steps. (k : ℕ) → number ≡ (k + 1) * 6625109 → steps ≡ k) }
{
    match u32::try_from((number / STRAIGHT).saturating_sub(1)) {
        Ok(steps) => Ok(steps),
        Err(_) => Err(StepFault::NotTight),
    }
}

/// The length of which this is the number.
pub(crate) fn length_of(number: u64) -> Result<Length, StepFault>
    ensures limit { IfOk result (λ _. number < 6625109 * 9369319) }
    ensures number { IfOk result (λ l. number ≡ (l.straight + 1) * 6625109 + l.diagonal * 9369319) }
{
    if number >= NUMBER_LIMIT {
        return Err(StepFault::NotTight);
    }
    match parts_of(number) {
        Some(length) => Ok(length),
        None => Err(StepFault::NotTight),
    }
}

fn parts_of(number: u64) -> Option<Length>
    ensures { IfSome result (λ l. number ≡ (l.straight + 1) * 6625109 + l.diagonal * 9369319) }
{
    let diagonal = number % STRAIGHT * DIAGONAL_INVERSE % STRAIGHT;
    let straight = (number.checked_sub(diagonal * DIAGONAL)? / STRAIGHT).checked_sub(1)?;
    let length = Length::new(u32::try_from(straight).ok()?, u32::try_from(diagonal).ok()?)?;
    let again = (u64::from(length.straight) + 1) * STRAIGHT + u64::from(length.diagonal) * DIAGONAL;
    if again == number { Some(length) } else { None }
}
