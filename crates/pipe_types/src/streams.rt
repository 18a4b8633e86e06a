//! The kinds of streams and terminals, and what they stand for.

ghost use Rattle.std.specs.Prelude.{◌≤◌, ◌+◌, IsTrue, length, IfOk, Ok};
ghost use Rattle.pipe_limits.specs.declared.TheConstants.{MOST_COMPONENTS};
ghost use Rattle.list_denotation.specs.Copies.{finish_of};
ghost use Rattle.list_denotation.specs.Literals.{finish_has_words};
ghost use Rattle.pipe_tree.specs.Bounds.{stream_nesting, source_nesting, stages_nesting, stage_nesting};
ghost use Rattle.pipe_tree.specs.TreeCopies.{pattern_of, stream_of as stream_tree, source_of as source_tree, stages_of as stages_tree, stage_of as stage_tree, terminal_of as terminal_tree};
ghost use Rattle.pipe_tree.specs.Trees.{FlatMap};
ghost use Rattle.kind_rules.specs.Checked.{IsOneUnlessRefused};
ghost use Rattle.kind_rules.specs.Streams.{stream_of, source_of, stages_of, stage_of, terminal_of};
ghost use Rattle.pipe_kinds.specs.Copies.{scope_of};
ghost use Rattle.pipe_types.specs.Copies.{stream_copy};
ghost use Rattle.pipe_types.specs.Room.{HasRoomFor};

use crate::foldings::{State, folding};
use crate::sources::{boxed, items, range, unfolding, zipped};
use crate::stages::{RowCount, RowTest, counted, mapped, scanned, tested};
use crate::typed_stream::TypedStream;
use kind_rules::TypeFault;
use list_denotation::{Kind, Stream, Terminal};
use pipe_kinds::Scope;
use pipe_tree::{TPat, TSource, TStage, TStageNode, TStream, TTerminal};
use std::alloc::Global;

/// The rows of inner streams, one after the other.
#[cycle(streams)]
fn flattened<'a>(
    alloc: Global,
    scope: &Scope<'a>,
    pat: &'a TPat,
    inner: &'a TStream,
    of: TypedStream,
) -> Result<TypedStream, TypeFault>
    requires room { HasRoomFor scope.now (stream_nesting (stream_tree inner.now) + 1) }
    ensures { IsOneUnlessRefused stream_copy result
        (stage_of (scope_of scope.now)
        (FlatMap 0 (pattern_of pat.now) (stream_tree inner.now)) (stream_copy of)) }
{
    let inside = scope.inside(alloc, pat, of.kinds.as_slice())?;
    let inner = typed_stream(alloc, &inside, inner)?;
    boxed(alloc, inner.kinds, Stream::FlatMap(of.stream, inner.stream))
}

/// The source of a stream at this offset.
#[cycle(streams)]
fn typed_source<'a>(
    alloc: Global,
    scope: &Scope<'a>,
    at: u32,
    source: &'a TSource,
) -> Result<TypedStream, TypeFault>
    requires room { HasRoomFor scope.now (source_nesting (source_tree source.now)) }
    ensures { IsOneUnlessRefused stream_copy result
        (source_of (scope_of scope.now) at (source_tree source.now)) }
{
    match source {
        TSource::Array(name) => items(alloc, scope, name),
        TSource::Range(low, high) => range(alloc, scope, low, high),
        TSource::Unfold {
            seed,
            pat,
            guard,
            item,
            next,
        } => unfolding(alloc, scope, seed, pat, guard, item, next),
        TSource::Zip(left, right) => {
            let left = typed_stream(alloc, scope, left)?;
            let right = typed_stream(alloc, scope, right)?;
            zipped(alloc, at, left, right)
        }
    }
}

/// A stage over a stream.
#[cycle(streams)]
fn typed_stage<'a>(
    alloc: Global,
    scope: &Scope<'a>,
    stage: &'a TStage,
    of: TypedStream,
) -> Result<TypedStream, TypeFault>
    requires room { HasRoomFor scope.now (stage_nesting (stage_tree stage.now)) }
    ensures { IsOneUnlessRefused stream_copy result
        (stage_of (scope_of scope.now) (stage_tree stage.now) (stream_copy of)) }
{
    match &stage.node {
        TStageNode::Map(pat, body) => mapped(alloc, scope, pat, body, of),
        TStageNode::Filter(pat, test) => tested(alloc, scope, RowTest::Filter, pat, test, of),
        TStageNode::Take(count) => counted(alloc, scope, RowCount::Take, count, of),
        TStageNode::Drop(count) => counted(alloc, scope, RowCount::Drop, count, of),
        TStageNode::TakeWhile(pat, test) => {
            tested(alloc, scope, RowTest::TakeWhile, pat, test, of)
        }
        TStageNode::Scan {
            seed,
            state,
            pat,
            next,
        } => scanned(alloc, scope, seed, state, pat, next, of),
        TStageNode::FlatMap(pat, inner) => flattened(alloc, scope, pat, inner, of),
    }
}

/// Stages over a stream, one after the other.
#[cycle(streams)]
fn typed_stages<'a>(
    alloc: Global,
    scope: &Scope<'a>,
    stages: &'a [TStage],
    of: TypedStream,
) -> Result<TypedStream, TypeFault>
    requires room { HasRoomFor scope.now (stages_nesting (stages_tree stages.now)) }
    ensures { IsOneUnlessRefused stream_copy result
        (stages_of (scope_of scope.now) (stages_tree stages.now) (stream_copy of)) }
{
    let mut rows = of;
    for stage in stages {
        rows = typed_stage(alloc, scope, stage, rows)?;
    }
    Ok(rows)
}

/// A stream, or its first fault.
#[cycle(streams)]
pub fn typed_stream<'a>(
    alloc: Global,
    scope: &Scope<'a>,
    stream: &'a TStream,
) -> Result<TypedStream, TypeFault>
    requires room { HasRoomFor scope.now (stream_nesting (stream_tree stream.now)) }
    ensures { IsOneUnlessRefused stream_copy result
        (stream_of (scope_of scope.now) (stream_tree stream.now)) }
{
    let rows = typed_source(alloc, scope, stream.at, &stream.source)?;
    typed_stages(alloc, scope, stream.stages.as_slice(), rows)
}

/// A terminal over rows of these kinds, or its first fault.
pub fn typed_terminal<'a>(
    alloc: Global,
    scope: &Scope<'a>,
    terminal: &'a TTerminal,
    row: &[Kind],
) -> Result<Terminal, TypeFault>
    requires room { HasRoomFor scope.now 1 }
    requires narrow { length row.now ≤ MOST_COMPONENTS }
    ensures terminal { IsOneUnlessRefused finish_of result
        (terminal_of (scope_of scope.now) (terminal_tree terminal.now) row.now) }
    ensures words { IfOk result (λ t. IsTrue (finish_has_words (finish_of t))) }
{
    match terminal {
        TTerminal::Fold {
            seed,
            state,
            pat,
            next,
        } => {
            let State { seed, next } = folding(alloc, scope, seed, state, pat, next, row)?;
            Ok(Terminal::Fold {
                seed: seed.exprs,
                next: next.exprs,
            })
        }
        TTerminal::Print => Ok(Terminal::Print),
    }
}
