//! Parts that stand behind a separator.

ghost use Rattle.pipe_reader.specs.Continuations.{ARow, APattern, expression};
ghost use Rattle.pipe_rows.specs.ReaderState.{ReadsFrom, GoesOn, after, result_copy, end_of, left_of};
ghost use Rattle.pipe_rows.specs.FormReading.{Reads};
ghost use Rattle.pipe_tree.specs.TreeCopies.{boxed_copy, formula_of, pattern_of, row_of};

use crate::expressions::expression;
use crate::patterns::pattern;
use crate::reader::Reader;
use crate::rows::row;
use pipe_reader::Separator;
use pipe_tree::{ParseFault, TExpr, TPat, TRow};

/// `SEPARATOR row`: reads a row behind this separator.
pub fn row_after(reader: &mut Reader, separator: Separator) -> Result<TRow, ParseFault>
    ensures reads { ReadsFrom (after separator ARow) reader.old row_of result reader.new }
    ensures on { GoesOn reader.old reader.new }
{
    reader.separator(separator)?;
    row(reader)
}

/// `SEPARATOR pat`: reads a pattern behind this separator.
pub fn pattern_after(reader: &mut Reader, separator: Separator) -> Result<TPat, ParseFault>
    ensures reads { ReadsFrom (after separator APattern) reader.old pattern_of result reader.new }
    ensures on { GoesOn reader.old reader.new }
{
    reader.separator(separator)?;
    pattern(reader)
}

/// `SEPARATOR expr`: reads an expression behind this separator.
pub fn expression_after(reader: &mut Reader, separator: Separator) -> Result<Box<TExpr>, ParseFault>
    ensures reads { ReadsFrom (after separator expression) reader.old (boxed_copy formula_of)
        result reader.new }
    ensures on { GoesOn reader.old reader.new }
{
    reader.separator(separator)?;
    expression(reader)
}
