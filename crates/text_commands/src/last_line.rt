//! The last line of rows, which counts them.
ghost use Rattle.std.specs.Prelude.{◌≡◌, [], OnOk, OnErr};
ghost use Rattle.text_io.specs.Sink.{held_back, Puts, Breaks};
ghost use Rattle.text_commands.specs.Code.Tallies.{tally_line, tally_pieces};
ghost use Rattle.ending.specs.Pieces.{pieces_of};

use crate::tally::Tally;
use ending::{Piece, put_pieces};
use std::io::Write;
use text_io::{Sink, WriteFault};

/// What the last line tells: of listed lengths, or of straight steps.
fn pieces(tally: &Tally, straight: bool) -> [Piece; 5]
    ensures { pieces_of result ≡ tally_pieces straight tally.now }
{
    let rows = Piece::new(b"rows ", u128::from(tally.rows));
    let unreachable = Piece::new(b" unreachable ", u128::from(tally.unreachable));
    let size = Piece::new(b" size ", u128::from(tally.size));
    if straight {
        let sum = Piece::new(b" sum ", tally.sum);
        let greatest = Piece::new(b" greatest ", u128::from(tally.greatest));
        return [rows, sum, greatest, unreachable, size];
    }
    let agree = Piece::new(b" agree ", u128::from(tally.agree));
    let differ = Piece::new(b" differ ", u128::from(tally.differ));
    [rows, agree, differ, unreachable, size]
}

/// Puts the last line, and sees that it leaves the writer.
pub(crate) fn send_last_line<W: Write>(
    sink: &mut Sink<'_, W>,
    tally: &Tally,
    straight: bool,
) -> Result<(), WriteFault>
    ensures ok { OnOk result (Puts W.contents sink.old sink.new (tally_line straight tally.now)) }
    ensures none_held { OnOk result (held_back sink.new ≡ []) }
    ensures err { OnErr result
        (Breaks W.contents sink.old sink.new (tally_line straight tally.now)) }
{
    put_pieces(sink, &pieces(tally, straight))?;
    sink.put(b"\n")?;
    sink.flush()
}
