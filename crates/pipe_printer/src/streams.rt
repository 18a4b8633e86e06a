//! Streams: their sources, and the stages behind these, each after a bar.

ghost use Rattle.std.specs.Prelude.{◌≡◌, ◌++◌, ◌∷◌, [], OnOk};
ghost use Rattle.pipe_printer.specs.Printing.{PutsTokens, pattern_tokens, folding_tokens, stream_tokens, source_tokens, stage_tokens, stages_tokens};
ghost use Rattle.pipe_tree.specs.Tokens.{Sym};
ghost use Rattle.pipe_tree.specs.Trees.{Range, Unfold};
ghost use Rattle.pipe_tree.specs.TreeCopies.{formula_of, row_of, pattern_of, stream_of, source_of, stage_of, stages_of};

use crate::expressions::put_expression;
use crate::pieces::{put_name, put_token};
use crate::rows::{put_pattern, put_row};
use pipe_lexer::Symbol;
use pipe_tree::{TExpr, TPat, TRow, TSource, TStage, TStageNode, TStream};
use strm_num::NoMemory;

/// Puts what stands behind `scan` and `fold`.
pub fn put_folding(
    out: &mut Vec<u8>,
    seed: &TRow,
    state: &TPat,
    pat: &TPat,
    next: &TRow,
) -> Result<(), NoMemory>
    ensures { OnOk result (PutsTokens out.old out.new (folding_tokens (row_of seed.now)
        (pattern_of state.now) (pattern_of pat.now) (row_of next.now))) }
{
    put_row(out, seed)?;
    put_token(out, b"with")?;
    put_pattern(out, state)?;
    put_pattern(out, pat)?;
    put_token(out, b"->")?;
    put_row(out, next)
}

/// Puts a range with its bounds.
fn put_range(out: &mut Vec<u8>, low: &TExpr, high: &TExpr) -> Result<(), NoMemory>
    ensures { OnOk result (PutsTokens out.old out.new (source_tokens (Range (formula_of low.now)
        (formula_of high.now)))) }
{
    put_token(out, b"range")?;
    put_token(out, b"(")?;
    put_expression(out, low)?;
    put_token(out, b",")?;
    put_expression(out, high)?;
    put_token(out, b")")
}

/// Puts an unfolding with its parts.
fn put_unfold(
    out: &mut Vec<u8>,
    seed: &TRow,
    pat: &TPat,
    guard: &TExpr,
    item: &TRow,
    next: &TRow,
) -> Result<(), NoMemory>
    ensures { OnOk result (PutsTokens out.old out.new (source_tokens (Unfold (row_of seed.now)
        (pattern_of pat.now) (formula_of guard.now) (row_of item.now) (row_of next.now)))) }
{
    put_token(out, b"unfold")?;
    put_row(out, seed)?;
    put_token(out, b"with")?;
    put_pattern(out, pat)?;
    put_token(out, b"while")?;
    put_expression(out, guard)?;
    put_token(out, b"yield")?;
    put_row(out, item)?;
    put_token(out, b"next")?;
    put_row(out, next)
}

#[cycle(stream_texts)]
fn put_source(out: &mut Vec<u8>, source: &TSource) -> Result<(), NoMemory>
    ensures { OnOk result (PutsTokens out.old out.new (source_tokens (source_of source.now))) }
{
    match source {
        TSource::Array(name) => {
            put_token(out, b"array")?;
            put_name(out, name)
        }
        TSource::Range(low, high) => put_range(out, low, high),
        TSource::Unfold {
            seed,
            pat,
            guard,
            item,
            next,
        } => put_unfold(out, seed, pat, guard, item, next),
        TSource::Zip(left, right) => {
            put_token(out, b"zip")?;
            put_token(out, b"(")?;
            put_stream(out, left)?;
            put_token(out, b",")?;
            put_stream(out, right)?;
            put_token(out, b")")
        }
    }
}

/// Puts a pattern and an arrow.
fn put_binding(out: &mut Vec<u8>, pat: &TPat) -> Result<(), NoMemory>
    ensures { OnOk result (PutsTokens out.old out.new (pattern_tokens (pattern_of pat.now)
        ++ Sym Symbol.Arrow ∷ [])) }
{
    put_pattern(out, pat)?;
    put_token(out, b"->")
}

#[cycle(stream_texts)]
fn put_stage(out: &mut Vec<u8>, stage: &TStage) -> Result<(), NoMemory>
    ensures { OnOk result (PutsTokens out.old out.new (stage_tokens (stage_of stage.now))) }
{
    match &stage.node {
        TStageNode::Map(pat, body) => {
            put_token(out, b"map")?;
            put_binding(out, pat)?;
            put_row(out, body)
        }
        TStageNode::Filter(pat, test) => {
            put_token(out, b"filter")?;
            put_binding(out, pat)?;
            put_expression(out, test)
        }
        TStageNode::Take(count) => {
            put_token(out, b"take")?;
            put_expression(out, count)
        }
        TStageNode::Drop(count) => {
            put_token(out, b"drop")?;
            put_expression(out, count)
        }
        TStageNode::TakeWhile(pat, test) => {
            put_token(out, b"takeWhile")?;
            put_binding(out, pat)?;
            put_expression(out, test)
        }
        TStageNode::Scan {
            seed,
            state,
            pat,
            next,
        } => {
            put_token(out, b"scan")?;
            put_folding(out, seed, state, pat, next)
        }
        TStageNode::FlatMap(pat, inner) => {
            put_token(out, b"flatMap")?;
            put_binding(out, pat)?;
            put_token(out, b"(")?;
            put_stream(out, inner)?;
            put_token(out, b")")
        }
    }
}

/// Puts stages, each after a bar.
#[cycle(stream_texts)]
fn put_stages(out: &mut Vec<u8>, stages: &[TStage]) -> Result<(), NoMemory>
    ensures { OnOk result (PutsTokens out.old out.new (stages_tokens (stages_of stages.now))) }
{
    for stage in stages {
        put_token(out, b"|")?;
        put_stage(out, stage)?;
    }
    Ok(())
}

/// Puts a stream.
#[cycle(stream_texts)]
pub fn put_stream(out: &mut Vec<u8>, stream: &TStream) -> Result<(), NoMemory>
    ensures { OnOk result (PutsTokens out.old out.new (stream_tokens (stream_of stream.now))) }
{
    put_source(out, &stream.source)?;
    put_stages(out, stream.stages.as_slice())
}
