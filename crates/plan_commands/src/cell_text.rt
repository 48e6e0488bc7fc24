//! The text of cells: the column and the row of each, behind spaces.
ghost use Rattle.std.specs.Prelude.{◌≡◌, ◌≤◌, ◌∷◌, [], length, take, OnOk, OnErr, MatchOption};
ghost use Rattle.text_io.specs.Sink.{Puts, Breaks};
ghost use Rattle.text_io.specs.Text.{spaced_numbers};
ghost use Rattle.plan_commands.specs.PathText.{numbers_of};
ghost use Rattle.plan_commands.specs.Code.Numerals.{AreNumerals};

use crate::numerals::{MOST_BYTES, Numeral};
use grid::Cell;
use std::io::Write;
use text_io::{Sink, WriteFault};

/// The cells of so many agents are put at once.
const PIECE: usize = 256;

/// There is room for the text of so many cells.
const ROOM: usize = 2 * MOST_BYTES * PIECE;

/// Puts the column and the row of each cell, each behind a space.
pub(crate) fn put_cells<W: Write>(
    sink: &mut Sink<'_, W>,
    cells: &[Cell],
    numerals: &[Numeral],
) -> Result<(), WriteFault>
    requires { AreNumerals numerals.now }
    ensures ok { OnOk result
        (Puts W.contents sink.old sink.new (spaced_numbers (numbers_of cells.now))) }
    ensures err { OnErr result
        (Breaks W.contents sink.old sink.new (spaced_numbers (numbers_of cells.now))) }
{
    let mut bytes = [0; ROOM];
    for piece in cells.chunks(PIECE) {
        put_piece(sink, piece, numerals, &mut bytes)?;
    }
    Ok(())
}

/// Puts the text of cells for which there is room.
fn put_piece<W: Write>(
    sink: &mut Sink<'_, W>,
    cells: &[Cell],
    numerals: &[Numeral],
    bytes: &mut [u8],
) -> Result<(), WriteFault>
    requires cells { length cells.now ≤ 256 }
    requires room { length bytes.old ≡ 3584 }
    requires numerals { AreNumerals numerals.now }
    ensures ok { OnOk result
        (Puts W.contents sink.old sink.new (spaced_numbers (numbers_of cells.now))) }
    ensures err { OnErr result
        (Breaks W.contents sink.old sink.new (spaced_numbers (numbers_of cells.now))) }
{
    match line_up(cells, numerals, bytes) {
        Some(len) => sink.put(&bytes[..len]),
        None => put_far_cells(sink, cells),
    }
}

/// Lines up the numerals of the cells in the first bytes, so many; or answers none, where one isn't
/// kept.
fn line_up(cells: &[Cell], numerals: &[Numeral], bytes: &mut [u8]) -> Option<usize>
    requires cells { length cells.now ≤ 256 }
    requires room { length bytes.old ≡ 3584 }
    requires numerals { AreNumerals numerals.now }
    ensures fits { MatchOption result (Unit {0}) (λ len. len ≤ length bytes.new) }
    ensures text { MatchOption result (Unit {0})
        (λ len. take len bytes.new ≡ spaced_numbers (numbers_of cells.now)) }
{
    let mut len = 0;
    for cell in cells {
        let (x, y) = (usize::from(cell.x), usize::from(cell.y));
        if x >= numerals.len() || y >= numerals.len() {
            return None;
        }
        len = numerals[x].write(len, bytes);
        len = numerals[y].write(len, bytes);
    }
    Some(len)
}

/// Puts the text of cells, some of whose numerals are not kept.
#[cold]
fn put_far_cells<W: Write>(sink: &mut Sink<'_, W>, cells: &[Cell]) -> Result<(), WriteFault>
    ensures ok { OnOk result
        (Puts W.contents sink.old sink.new (spaced_numbers (numbers_of cells.now))) }
    ensures err { OnErr result
        (Breaks W.contents sink.old sink.new (spaced_numbers (numbers_of cells.now))) }
{
    for cell in cells {
        put_far_cell(sink, *cell)?;
    }
    Ok(())
}

/// Puts the column and the row of a cell.
fn put_far_cell<W: Write>(sink: &mut Sink<'_, W>, cell: Cell) -> Result<(), WriteFault>
    ensures ok { OnOk result
        (Puts W.contents sink.old sink.new (spaced_numbers (cell.x ∷ cell.y ∷ []))) }
    ensures err { OnErr result
        (Breaks W.contents sink.old sink.new (spaced_numbers (cell.x ∷ cell.y ∷ []))) }
{
    sink.put_number_after(b' ', cell.x as u64)?;
    sink.put_number_after(b' ', cell.y as u64)
}
