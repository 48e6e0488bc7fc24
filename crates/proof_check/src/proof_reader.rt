//! Reading a proof.
ghost use Rattle.std.specs.Prelude.{◌≡◌, ◌≤◌, [], IfOk};
ghost use Rattle.text_io.specs.Counted.{counted_inner, failures_of};
ghost use Rattle.text_io.specs.Lines.{HasTaken};
ghost use Rattle.text_io.specs.Reading.{ReadsText};
ghost use Rattle.text_io.specs.Source.{source_reader};
ghost use Rattle.optimality.specs.Judging.{BoundHolds};
ghost use Rattle.proof_text.specs.ProofFault.{ProofFaultAt, proof_outcome};
ghost use Rattle.proof_text.specs.ProofText.{ProofText};

use crate::line_reader::read_line;
use crate::progress::Progress;
use grid::Map;
use least_costs::LegalSteps;
use optimality::Ends;
use proof_text::{ProofClaim, ProofFault};
use std::alloc::Global;
use std::io::Read;
use text_io::{Counted, PIECE, Source, TakenLine};

/// Reads a proof that no valid plan on the map costs less whose agents go from these starts to
/// these goals, the whole text. The first fault is answered; a reader that fails is not read again,
/// and the answer is then the fault that its bytes decide, or else
/// `ReadFailed`.
pub fn read_proof<R: Read>(
    alloc: Global,
    map: &Map,
    ends: Vec<Ends>,
    reader: &mut Counted<R>,
) -> Result<ProofClaim, ProofFault>
    ensures reads { ReadsText (ProofText map.now ends.items) (ProofFaultAt map.now ends.items)
        (R.remaining (counted_inner reader.old))
        (R.remaining (counted_inner reader.new)) (failures_of reader.old) (failures_of reader.new)
        (proof_outcome result) }
    ensures holds { IfOk result
        (λ claim. BoundHolds map.now ends.items claim.objective claim.bound) }
{
    proof_text::laws::proofs_hold();
    let mut source = Source::new(reader);
    read_lines(alloc, map, ends, &mut source)
}

/// Reads the lines of a source of which nothing was taken.
fn read_lines<R: Read>(
    alloc: Global,
    map: &Map,
    ends: Vec<Ends>,
    source: &mut Source<'_, R, PIECE>,
) -> Result<ProofClaim, ProofFault>
    requires { HasTaken R.remaining (source_reader source.old) source.old [] }
    ensures same_reader { source.new.reader.ghost_name ≡ source.old.reader.ghost_name }
    ensures reads { ReadsText (ProofText map.now ends.items) (ProofFaultAt map.now ends.items)
        (R.remaining (counted_inner (source_reader source.old)))
        (R.remaining (counted_inner (source_reader source.new)))
        (failures_of (source_reader source.old)) (failures_of (source_reader source.new))
        (proof_outcome result) }
{
    text_io::laws::places();
    optimality::laws::leaves();
    let legal = LegalSteps::of(alloc, map)?;
    let mut progress = Progress::new(alloc, map, &legal, ends)?;
    let mut number = 1u64;
    'lines: while progress.is_line_due() {
        number = read_line(source, &mut progress, number)?;
    }
    let mut no_room = [0; 0];
    match source.take_line(&mut no_room) {
        TakenLine::AtEnd(_) => Ok(progress.claim()),
        TakenLine::Failed => Err(ProofFault::ReadFailed),
        TakenLine::WithLineFeed(_) | TakenLine::TooLong => Err(ProofFault::TextAfter(number)),
    }
}
