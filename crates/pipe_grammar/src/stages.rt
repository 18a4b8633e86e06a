//! The stages that have no streams in them.

ghost use Rattle.std.specs.Prelude.{ℕ};
ghost use Rattle.pipe_reader.specs.Continuations.{stage_form};
ghost use Rattle.pipe_reader.specs.declared.forms.StageForm.TheVariants.{Map as MapForm, Filter as FilterForm, TakeWhile as TakeWhileForm, Take as TakeForm, Drop as DropForm, Scan as ScanForm};
ghost use Rattle.pipe_rows.specs.ReaderState.{ReadsFrom, GoesOn, result_copy, end_of, left_of};
ghost use Rattle.pipe_rows.specs.FormReading.{Reads};
ghost use Rattle.pipe_tree.specs.TreeCopies.{stage_at};

use pipe_reader::Separator;
use pipe_rows::{Reader, expression, expression_after, folding, pattern, row_after};
use pipe_tree::{ParseFault, TStageNode};

/// `stage = "map" pat "->" row`: reads what follows `map`.
pub fn map(reader: &mut Reader) -> Result<TStageNode, ParseFault>
    ensures reads { (at : ℕ)
        → ReadsFrom (stage_form MapForm at 0) reader.old (stage_at at) result reader.new }
    ensures on { GoesOn reader.old reader.new }
{
    let pat = pattern(reader)?;
    let body = row_after(reader, Separator::Arrow)?;
    Ok(TStageNode::Map(pat, body))
}

/// `stage = "filter" pat "->" expr`: reads what follows `filter`.
pub fn filter(reader: &mut Reader) -> Result<TStageNode, ParseFault>
    ensures reads { (at : ℕ)
        → ReadsFrom (stage_form FilterForm at 0) reader.old (stage_at at) result reader.new }
    ensures on { GoesOn reader.old reader.new }
{
    let pat = pattern(reader)?;
    let test = expression_after(reader, Separator::Arrow)?;
    Ok(TStageNode::Filter(pat, Box::into_inner(test)))
}

/// `stage = "takeWhile" pat "->" expr`: reads what follows `takeWhile`.
pub fn take_while(reader: &mut Reader) -> Result<TStageNode, ParseFault>
    ensures reads { (at : ℕ)
        → ReadsFrom (stage_form TakeWhileForm at 0) reader.old (stage_at at) result reader.new }
    ensures on { GoesOn reader.old reader.new }
{
    let pat = pattern(reader)?;
    let test = expression_after(reader, Separator::Arrow)?;
    Ok(TStageNode::TakeWhile(pat, Box::into_inner(test)))
}

/// `stage = "take" expr`: reads what follows `take`.
pub fn take(reader: &mut Reader) -> Result<TStageNode, ParseFault>
    ensures reads { (at : ℕ)
        → ReadsFrom (stage_form TakeForm at 0) reader.old (stage_at at) result reader.new }
    ensures on { GoesOn reader.old reader.new }
{
    Ok(TStageNode::Take(Box::into_inner(expression(reader)?)))
}

/// `stage = "drop" expr`: reads what follows `drop`.
pub fn skip(reader: &mut Reader) -> Result<TStageNode, ParseFault>
    ensures reads { (at : ℕ)
        → ReadsFrom (stage_form DropForm at 0) reader.old (stage_at at) result reader.new }
    ensures on { GoesOn reader.old reader.new }
{
    Ok(TStageNode::Drop(Box::into_inner(expression(reader)?)))
}

/// `stage = "scan" row "with" pat pat "->" row`: reads what follows `scan`.
pub fn scan(reader: &mut Reader) -> Result<TStageNode, ParseFault>
    ensures reads { (at : ℕ)
        → ReadsFrom (stage_form ScanForm at 0) reader.old (stage_at at) result reader.new }
    ensures on { GoesOn reader.old reader.new }
{
    let parts = folding(reader)?;
    Ok(TStageNode::Scan {
        seed: parts.seed,
        state: parts.state,
        pat: parts.pat,
        next: parts.next,
    })
}
