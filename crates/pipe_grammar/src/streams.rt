//! Streams, with the sources and the stages that have streams in them.

ghost use Rattle.std.specs.Prelude.{◌≡◌, ◌<◌, ◌≤◌, ◌+◌, ◌++◌, ◌∷◌, [], ℕ, List, length, map, IfOk, IfSome};
ghost use Rattle.pipe_reader.specs.Continuations.{AStage, AStream, BeginsStage, MoreStages, source_form, stage_form};
ghost use Rattle.pipe_reader.specs.declared.forms.StageForm.TheVariants.{FlatMap as FlatMapForm};
ghost use Rattle.pipe_reader.specs.declared.forms.SourceForm.TheVariants.{Zip as ZipForm};
ghost use Rattle.pipe_reader.specs.Nesting.{source_depth, stage_depth};
ghost use Rattle.pipe_tree.specs.Parsing.{offset_or_end};
ghost use Rattle.pipe_rows.specs.ReaderState.{ReadsFrom, StartsFrom, GoesOn, Starts, after, result_copy, end_of, class_at, left_of, stage_or_end};
ghost use Rattle.pipe_rows.specs.FormReading.{Reads};
ghost use Rattle.pipe_tree.specs.TreeCopies.{boxed_copy, stages_of_list, source_of, stage_at, stage_of, stream_of};
ghost use Rattle.pipe_tree.specs.Trees.{From, Source, Stage};

use crate::sources::{array, range, unfold};
use crate::stages::{filter, map as mapped, scan, skip, take, take_while};
use pipe_limits::MOST_NESTING;
use pipe_reader::{Separator, SourceForm, StageForm};
use pipe_rows::{Reader, TokenClass, pattern};
use pipe_tree::{ParseFault, TSource, TStage, TStageNode, TStages, TStream};
use strm_num::List;

/// `stage`: finds the keyword of a stage behind a bar, which is not taken; none where the outermost
/// stream ends.
fn stage_behind_bar(reader: &Reader, around: u32) -> Result<Option<StageForm>, ParseFault>
    ensures starts { (at : ℕ) (source : Source) (ss : List Stage)
        → Starts (AStage around at source ss) (end_of reader.now) (left_of reader.now) result
        (stage_or_end around at source ss) (left_of reader.now) }
    ensures form { IfOk result (λ found. IfSome found (λ form. class_at (left_of reader.now)
        ≡ BeginsStage form)) }
{
    match reader.class() {
        TokenClass::Stage(form) => Ok(Some(form)),
        _ => {
            if around == 0 && !reader.is_done() {
                Ok(None)
            } else {
                Err(reader.syntax())
            }
        }
    }
}

/// `"|" stage`: takes a bar, and finds the keyword of the stage behind it, which is not taken. None
/// where the stream ends: where no bar is next, and with the outermost stream where another token
/// stands behind the bar.
fn next_stage(reader: &mut Reader, around: u32) -> Result<Option<StageForm>, ParseFault>
    ensures starts { (at : ℕ) (source : Source) (ss : List Stage)
        → Starts (MoreStages around at source ss) (end_of reader.old) (left_of reader.old) result
        (stage_or_end around at source ss) (left_of reader.new) }
    ensures form { IfOk result (λ found. IfSome found (λ form. class_at (left_of reader.new)
        ≡ BeginsStage form)) }
    ensures fewer { IfOk result (λ found. IfSome found
        (λ form. length reader.new.left.now < length reader.old.left.now)) }
    ensures on { GoesOn reader.old reader.new }
{
    if reader.is_bar_next() {
        reader.advance();
        return stage_behind_bar(reader, around);
    }
    if around == 0 {
        Err(reader.syntax())
    } else {
        Ok(None)
    }
}

/// `SEPARATOR stream`: reads the stream behind this separator, which stands in one stream more than
/// what is around.
#[cycle(streams)]
fn stream_after(
    reader: &mut Reader,
    separator: Separator,
    around: u32,
) -> Result<Box<TStream>, ParseFault>
    requires { around + 2 ≤ MOST_NESTING }
    ensures reads { ReadsFrom (after separator (AStream (around + 1))) reader.old
        (boxed_copy stream_of) result reader.new }
    ensures on { GoesOn reader.old reader.new }
{
    reader.separator(separator)?;
    stream(reader, around + 1)
}

/// `source = "zip" "(" stream "," stream ")"`: reads what follows `zip`.
#[cycle(streams)]
fn zip(reader: &mut Reader, around: u32) -> Result<TSource, ParseFault>
    requires { around + 2 ≤ MOST_NESTING }
    ensures reads { ReadsFrom (source_form ZipForm around) reader.old source_of result reader.new }
    ensures on { GoesOn reader.old reader.new }
{
    let left = stream_after(reader, Separator::OpenParen, around)?;
    let right = stream_after(reader, Separator::Comma, around)?;
    reader.separator(Separator::CloseParen)?;
    Ok(TSource::Zip(left, right))
}

/// `source = "array" NAME | "range" "(" expr "," expr ")" | "unfold" .. | "zip" ..`: reads what follows
/// the keyword of a source of this form.
#[cycle(streams)]
fn source_behind(reader: &mut Reader, form: SourceForm, around: u32) -> Result<TSource, ParseFault>
    requires { source_depth form around ≤ MOST_NESTING }
    ensures reads { ReadsFrom (source_form form around) reader.old source_of result reader.new }
    ensures on { GoesOn reader.old reader.new }
{
    match form {
        SourceForm::Array => array(reader),
        SourceForm::Range => range(reader),
        SourceForm::Unfold => unfold(reader),
        SourceForm::Zip => zip(reader, around),
    }
}

/// `source = "array" .. | "range" .. | "unfold" .. | "zip" ..`: reads a source, by its keyword.
#[cycle(streams)]
fn source(reader: &mut Reader, around: u32) -> Result<Box<TSource>, ParseFault>
    requires { around < MOST_NESTING }
    ensures starts { let at = offset_or_end (end_of reader.old) (left_of reader.old) in
        StartsFrom (AStream around) reader.old (boxed_copy source_of) result
        (λ source. MoreStages around at source []) reader.new }
    ensures on { GoesOn reader.old reader.new }
{
    match reader.class() {
        TokenClass::Source(form) => {
            if form.nesting(around) > MOST_NESTING {
                return Err(ParseFault::TooDeep(reader.offset()));
            }
            reader.advance();
            let source = source_behind(reader, form, around)?;
            Ok(Box::new(reader.alloc, source)?)
        }
        _ => Err(reader.syntax()),
    }
}

/// `stage = "flatMap" pat "->" "(" stream ")"`: reads what follows `flatMap`.
#[cycle(streams)]
fn flat_map(reader: &mut Reader, around: u32) -> Result<TStageNode, ParseFault>
    requires { around + 2 ≤ MOST_NESTING }
    ensures reads { (at : ℕ)
        → ReadsFrom (stage_form FlatMapForm at around) reader.old (stage_at at) result reader.new }
    ensures on { GoesOn reader.old reader.new }
{
    let pat = pattern(reader)?;
    reader.separator(Separator::Arrow)?;
    let inner = stream_after(reader, Separator::OpenParen, around)?;
    reader.separator(Separator::CloseParen)?;
    Ok(TStageNode::FlatMap(pat, inner))
}

/// `stage = "map" .. | "filter" .. | "take" .. | "drop" .. | "takeWhile" .. | "scan" .. | "flatMap" ..`:
/// reads what follows the keyword of a stage of this form.
#[cycle(streams)]
fn stage_behind(reader: &mut Reader, form: StageForm, around: u32) -> Result<TStageNode, ParseFault>
    requires { stage_depth form around ≤ MOST_NESTING }
    ensures reads { (at : ℕ)
        → ReadsFrom (stage_form form at around) reader.old (stage_at at) result reader.new }
    ensures on { GoesOn reader.old reader.new }
{
    match form {
        StageForm::Map => mapped(reader),
        StageForm::Filter => filter(reader),
        StageForm::TakeWhile => take_while(reader),
        StageForm::Take => take(reader),
        StageForm::Drop => skip(reader),
        StageForm::Scan => scan(reader),
        StageForm::FlatMap => flat_map(reader, around),
    }
}

/// `stage`: reads the stage whose keyword, of this form, is next.
#[cycle(streams)]
fn stage(reader: &mut Reader, form: StageForm, around: u32) -> Result<TStage, ParseFault>
    requires within_depth { around < MOST_NESTING }
    requires form { class_at (left_of reader.old) ≡ BeginsStage form }
    ensures starts { (at : ℕ) (source : Source) (ss : List Stage)
        → StartsFrom (AStage around at source ss) reader.old stage_of result
        (λ s. MoreStages around at source (ss ++ s ∷ [])) reader.new }
    ensures on { GoesOn reader.old reader.new }
{
    let at = reader.offset();
    if form.nesting(around) > MOST_NESTING {
        return Err(ParseFault::TooDeep(at));
    }
    reader.advance();
    let node = stage_behind(reader, form, around)?;
    Ok(TStage { at, node })
}

/// `{ "|" stage }`: reads the stages of a stream that stands in so many streams, to its end. Behind the
/// outermost stream this takes the bar.
#[cycle(streams)]
fn stages(reader: &mut Reader, around: u32) -> Result<TStages, ParseFault>
    requires { around < MOST_NESTING }
    ensures starts { (at : ℕ) (source : Source)
        → StartsFrom (MoreStages around at source []) reader.old (map stage_of) result
        (λ ss f. f (From at source (stages_of_list ss))) reader.new }
    ensures on { GoesOn reader.old reader.new }
{
    let mut stages = List::new(reader.alloc);
    while let Some(form) = next_stage(reader, around)? {
        stages.push(stage(reader, form, around)?)?;
    }
    Ok(stages)
}

/// `stream = source { "|" stage }`: reads a stream that stands in so many streams, at most 15. The
/// outermost stream has a bar behind it, which is taken.
#[cycle(streams)]
pub fn stream(reader: &mut Reader, around: u32) -> Result<Box<TStream>, ParseFault>
    requires { around < MOST_NESTING }
    ensures reads { ReadsFrom (AStream around) reader.old (boxed_copy stream_of) result reader.new }
    ensures on { GoesOn reader.old reader.new }
{
    let at = reader.offset();
    let source = source(reader, around)?;
    let stages = stages(reader, around)?;
    let source = Box::into_inner(source);
    Ok(Box::new(reader.alloc, TStream { at, source, stages })?)
}
