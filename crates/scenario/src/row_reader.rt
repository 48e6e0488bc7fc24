//! Reading a line as a row.
ghost use Rattle.std.specs.Prelude.{◌≡◌, ◌≢◌, ◌≤◌, ℕ, List, []};
ghost use Rattle.std.specs.Prelude.{None, length, IfOk, MatchOption, MatchResult};
ghost use Rattle.std.specs.Arc.{arc_slice_items};
ghost use Rattle.text_io.specs.Text.{IsLine};
ghost use Rattle.scenario.specs.Fields.{content_of, fields_in_content};
ghost use Rattle.scenario.specs.Query.{longest_line};
ghost use Rattle.scenario.specs.ScenText.{IsShort, IsSkipped, SpellsRow};
ghost use Rattle.scenario.specs.ScenFault.{row_due, all_fields, wrong_number};
ghost use Rattle.scenario.specs.Code.Parsing.{fields_seen, HasNumbers, RefusesLine};

use crate::fields::{FieldBytes, content_of, nine_fields};
use crate::numbers::{Numbers, listed_of};
use crate::usual_fields::usual_fields;
use crate::{Row, ScenFault};
use std::alloc::{AllocError, Global};
use std::sync::ArcSlice;

/// The row that a line is, or nothing for a line that is skipped. The row before may lend its name.
pub(crate) fn read_row(
    alloc: Global,
    line: &[u8],
    number: u64,
    before: Option<&Row>,
) -> Result<Option<Row>, ScenFault>
    requires line { IsLine line.now }
    requires short { length line.now ≤ longest_line }
    ensures { MatchResult result
        (λ row. MatchOption row (IsSkipped line.now) (λ q. SpellsRow q line.now))
        (RefusesLine row_due number line.now) }
{
    let content = content_of(line);
    if content.is_empty() {
        return Ok(None);
    }
    let (fields, numbers) = row_fields(content, number)?;
    if !numbers.is_in_grid() {
        return Err(ScenFault::OutOfGrid(number));
    }
    let Some(listed) = listed_of(fields.listed) else {
        return Err(ScenFault::BadLength(number));
    };
    let name = name_of(alloc, fields.name, before)?;
    Ok(Some(Row::from_numbers(&numbers, name, listed)))
}

/// The fields of a line that isn't skipped, by its content, and the numbers that they spell.
fn row_fields(content: &[u8], number: u64) -> Result<(FieldBytes<'_>, Numbers), ScenFault>
    ensures { MatchResult result
        (λ p. (fields_in_content content.now ≡ all_fields (fields_seen p.0))
        × (wrong_number (fields_seen p.0) ≡ None) × HasNumbers (fields_seen p.0) p.1)
        (λ fault. (line : List ℕ) → IsLine line → IsShort line → (content_of line ≡ content.now)
        → (content_of line ≢ []) → RefusesLine row_due number line fault) }
{
    if let Some(usual) = usual_fields(content) {
        return Ok(usual);
    }
    let Some(fields) = nine_fields(content) else {
        return Err(ScenFault::FieldCount(number));
    };
    match Numbers::from_fields(&fields) {
        Ok(numbers) => Ok((fields, numbers)),
        Err(field) => Err(ScenFault::BadNumber(number, field)),
    }
}

/// The bytes as a name: that of the row before, where it is the same.
fn name_of(alloc: Global, bytes: &[u8], before: Option<&Row>) -> Result<ArcSlice<u8>, AllocError>
    ensures { IfOk result (λ name. arc_slice_items name ≡ bytes.now) }
{
    match before {
        Some(row) if row.name() == bytes => row.shared_name(),
        _ => ArcSlice::from_slice(alloc, bytes),
    }
}
