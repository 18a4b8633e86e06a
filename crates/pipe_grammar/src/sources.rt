//! The sources that have no streams in them.

ghost use Rattle.pipe_reader.specs.Continuations.{source_form};
ghost use Rattle.pipe_reader.specs.declared.forms.SourceForm.TheVariants.{Array as ArrayForm, Range as RangeForm, Unfold as UnfoldForm};
ghost use Rattle.pipe_rows.specs.ReaderState.{ReadsFrom, GoesOn, result_copy, end_of, left_of};
ghost use Rattle.pipe_rows.specs.FormReading.{Reads};
ghost use Rattle.pipe_tree.specs.TreeCopies.{source_of};

use pipe_reader::Separator;
use pipe_rows::{Reader, expression_after, label, pattern_after, row, row_after};
use pipe_tree::{ParseFault, TSource};

/// `source = "array" NAME`: reads what follows `array`.
pub fn array(reader: &mut Reader) -> Result<TSource, ParseFault>
    ensures reads { ReadsFrom (source_form ArrayForm 0) reader.old source_of result reader.new }
    ensures on { GoesOn reader.old reader.new }
{
    Ok(TSource::Array(label(reader)?))
}

/// `source = "range" "(" expr "," expr ")"`: reads what follows `range`.
pub fn range(reader: &mut Reader) -> Result<TSource, ParseFault>
    ensures reads { ReadsFrom (source_form RangeForm 0) reader.old source_of result reader.new }
    ensures on { GoesOn reader.old reader.new }
{
    let low = expression_after(reader, Separator::OpenParen)?;
    let high = expression_after(reader, Separator::Comma)?;
    reader.separator(Separator::CloseParen)?;
    Ok(TSource::Range(Box::into_inner(low), Box::into_inner(high)))
}

/// `source = "unfold" row "with" pat "while" expr "yield" row "next" row`: reads what follows `unfold`.
pub fn unfold(reader: &mut Reader) -> Result<TSource, ParseFault>
    ensures reads { ReadsFrom (source_form UnfoldForm 0) reader.old source_of result reader.new }
    ensures on { GoesOn reader.old reader.new }
{
    let seed = row(reader)?;
    let pat = pattern_after(reader, Separator::With)?;
    let guard = expression_after(reader, Separator::While)?;
    let item = row_after(reader, Separator::Yield)?;
    let next = row_after(reader, Separator::Next)?;
    Ok(TSource::Unfold {
        seed,
        pat,
        guard: Box::into_inner(guard),
        item,
        next,
    })
}
