//! Reading a proof line by line.
ghost use Rattle.std.specs.Prelude.{◌≡◌, ◌<◌, ℕ, IfOk, List, MatchResult, Err};
ghost use Rattle.grid.specs.Map.{Grid};
ghost use Rattle.optimality.specs.declared.constraint.Ends.{Ends as ends_type};
ghost use Rattle.proof_text.specs.ProofFault.{IsProofLineDue, ProofFaultAt, proof_outcome};
ghost use Rattle.proof_text.specs.ProofText.{ProofText};
ghost use Rattle.text_io.specs.Counted.{counted_inner, failures_of, one_more};
ghost use Rattle.text_io.specs.Lines.{HasTaken};
ghost use Rattle.text_io.specs.Reading.{ReadsText};
ghost use Rattle.text_io.specs.Source.{most_left, source_reader};
ghost use Rattle.text_io.specs.declared.counted.Counted.{Counted as counted_type};
ghost use Rattle.proof_check.specs.Code.Progressing.{due_of};
ghost use Rattle.proof_check.specs.Code.LinesRead.{HasReadLines};

use crate::progress::Progress;
use proof_text::ProofFault;
use std::io::Read;
use text_io::{PIECE, Source, TakenLine};

/// A line of a proof has no more bytes before its LF.
const LONGEST_LINE: usize = 128;

/// Takes the line that is due, which has this number, and says which number the next one has.
pub(crate) fn read_line<R: Read>(
    source: &mut Source<'_, R, PIECE>,
    progress: &mut Progress<'_>,
    number: u64,
) -> Result<u64, ProofFault>
    requires due { IsProofLineDue (due_of progress.old) }
    requires taken { (first : counted_type R) × (before : List (List ℕ))
        × HasTaken R.remaining first source.old before }
    ensures same_reader { source.new.reader.ghost_name ≡ source.old.reader.ghost_name }
    ensures less_left { IfOk result (λ _. most_left source.new < most_left source.old) }
    ensures next { IfOk result (λ next. next ≡ one_more number) }
    ensures reads { (m : Grid) (ends : List ends_type) (first : counted_type R)
        → HasReadLines R.remaining first m ends source.old progress.old number
        → MatchResult result
        (λ next. HasReadLines R.remaining first m ends source.new progress.new next)
        (λ fault. ReadsText (ProofText m ends) (ProofFaultAt m ends)
        (R.remaining (counted_inner first))
        (R.remaining (counted_inner (source_reader source.new))) (failures_of first)
        (failures_of (source_reader source.new)) (proof_outcome (Err fault))) }
{
    text_io::laws::places();
    optimality::laws::leaves();
    let mut room = [0; LONGEST_LINE];
    match source.take_line(&mut room) {
        TakenLine::WithLineFeed(count) => {
            progress.add_line(&room[..count], number)?;
            Ok(number.saturating_add(1))
        }
        TakenLine::AtEnd(_) => Err(ProofFault::Unfinished(number)),
        TakenLine::TooLong => Err(ProofFault::TooMany(number)),
        TakenLine::Failed => Err(ProofFault::ReadFailed),
    }
}
