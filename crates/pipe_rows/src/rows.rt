//! Rows, a production each.

ghost use Rattle.pipe_reader.specs.Continuations.{ARow};
ghost use Rattle.pipe_rows.specs.ReaderState.{ReadsFrom, GoesOn, braced_parts, result_copy, end_of, left_of, single_part};
ghost use Rattle.pipe_rows.specs.FormReading.{Reads};
ghost use Rattle.pipe_tree.specs.TreeCopies.{row_of};

use crate::expressions::expression;
use crate::reader::Reader;
use pipe_reader::Separator;
use pipe_tree::{ParseFault, TRow};
use strm_num::List;

/// `row = expr`: reads a row of one expression.
fn single(reader: &mut Reader) -> Result<TRow, ParseFault>
    ensures reads { ReadsFrom single_part reader.old row_of result reader.new }
    ensures on { GoesOn reader.old reader.new }
{
    let part = expression(reader)?;
    let at = part.at;
    let mut parts = List::new(reader.alloc);
    parts.push(Box::into_inner(part))?;
    Ok(TRow {
        at,
        braces: false,
        parts,
    })
}

/// `row = "{" expr { "," expr } "}"`: reads what follows the brace of a row, which stands at this
/// offset.
fn braced(reader: &mut Reader, at: u32) -> Result<TRow, ParseFault>
    ensures reads { ReadsFrom (braced_parts at) reader.old row_of result reader.new }
    ensures on { GoesOn reader.old reader.new }
{
    let mut parts = List::new(reader.alloc);
    parts.push(Box::into_inner(expression(reader)?))?;
    while reader.is_next(Separator::Comma) {
        reader.advance();
        parts.push(Box::into_inner(expression(reader)?))?;
    }
    reader.separator(Separator::CloseBrace)?;
    Ok(TRow {
        at,
        braces: true,
        parts,
    })
}

/// `row = expr | "{" expr { "," expr } "}"`: reads a row, an expression or expressions in braces.
pub fn row(reader: &mut Reader) -> Result<TRow, ParseFault>
    ensures reads { ReadsFrom ARow reader.old row_of result reader.new }
    ensures on { GoesOn reader.old reader.new }
{
    if !reader.is_brace_next() {
        return single(reader);
    }
    let at = reader.offset();
    reader.advance();
    braced(reader, at)
}
