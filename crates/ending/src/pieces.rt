//! Texts of words and numbers.
ghost use Rattle.std.specs.Prelude.{◌≡◌, ◌++◌, decimal, OnOk, OnErr};
ghost use Rattle.text_io.specs.Sink.{Puts, Breaks};
ghost use Rattle.ending.specs.Pieces.{pieces_of, pieces_text};

use itoa::Buffer;
use std::io::Write;
use text_io::{Sink, WriteFault};

/// Bytes, and a number behind them.
#[derive(Clone, Copy, Debug)]
pub struct Piece {
    word: &'static [u8],
    number: u128,
}

impl Piece {
    pub fn new(word: &'static [u8], number: u128) -> Piece
        ensures { (result.word.now ≡ word.now) × (result.number ≡ number) }
    {
        Piece { word, number }
    }
}

/// Puts one piece after another.
pub fn put_pieces<W: Write>(sink: &mut Sink<'_, W>, pieces: &[Piece]) -> Result<(), WriteFault>
    ensures ok { OnOk result
        (Puts W.contents sink.old sink.new (pieces_text (pieces_of pieces.now))) }
    ensures err { OnErr result
        (Breaks W.contents sink.old sink.new (pieces_text (pieces_of pieces.now))) }
{
    for piece in pieces {
        put_piece(sink, piece)?;
    }
    Ok(())
}

/// Puts pieces, and what ends them.
pub fn put_ended<W: Write>(
    sink: &mut Sink<'_, W>,
    pieces: &[Piece],
    end: &[u8],
) -> Result<(), WriteFault>
    ensures ok { OnOk result
        (Puts W.contents sink.old sink.new (pieces_text (pieces_of pieces.now) ++ end.now)) }
    ensures err { OnErr result
        (Breaks W.contents sink.old sink.new (pieces_text (pieces_of pieces.now) ++ end.now)) }
{
    put_pieces(sink, pieces)?;
    sink.put(end)
}

fn put_piece<W: Write>(sink: &mut Sink<'_, W>, piece: &Piece) -> Result<(), WriteFault>
    ensures ok { OnOk result
        (Puts W.contents sink.old sink.new (piece.now.word.now ++ decimal piece.now.number)) }
    ensures err { OnErr result
        (Breaks W.contents sink.old sink.new (piece.now.word.now ++ decimal piece.now.number)) }
{
    sink.put(piece.word)?;
    sink.put(Buffer::new().format(piece.number).as_bytes())
}
