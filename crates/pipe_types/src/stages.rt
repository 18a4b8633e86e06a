//! The stages that hold no stream.

ghost use Rattle.std.specs.Prelude.{◌≡◌, ◌≤◌, ◌&&◌, length};
ghost use Rattle.pipe_limits.specs.declared.TheConstants.{MOST_COMPONENTS};
ghost use Rattle.list_denotation.specs.Copies.{pipe_of, term_of};
ghost use Rattle.list_denotation.specs.Literals.{has_words, pipe_has_words};
ghost use Rattle.pipe_tree.specs.TreeCopies.{formula_of, pattern_of, row_of};
ghost use Rattle.kind_rules.specs.Checked.{IsOneUnlessRefused};
ghost use Rattle.kind_rules.specs.Streams.{count_of, map_of, row_test, scan_of, test_of};
ghost use Rattle.pipe_kinds.specs.Copies.{expr_term, scope_of};
ghost use Rattle.pipe_types.specs.Copies.{stream_copy};
ghost use Rattle.pipe_types.specs.Room.{HasRoomFor};
ghost use Rattle.pipe_types.specs.StageForms.{counted_pipe, tested_pipe};

use crate::foldings::{State, folding};
use crate::sources::boxed;
use crate::typed_stream::TypedStream;
use kind_rules::TypeFault;
use list_denotation::{Expr, Kind, Stream};
use pipe_kinds::{Divisions, Scope, TypedExpr, of_this_kind, opening_of_kind, typed_row};
use pipe_tree::{TExpr, TPat, TRow};
use std::alloc::Global;

/// The stages that test each row.
#[derive(Clone, Copy)]
pub enum RowTest {
    Filter,
    TakeWhile,
}

/// The stages that count rows.
#[derive(Clone, Copy)]
pub enum RowCount {
    Take,
    Drop,
}

/// The rows that a body makes of rows.
pub fn mapped<'a>(
    alloc: Global,
    scope: &Scope<'a>,
    pat: &'a TPat,
    body: &TRow,
    of: TypedStream,
) -> Result<TypedStream, TypeFault>
    requires room { HasRoomFor scope.now 1 }
    ensures { IsOneUnlessRefused stream_copy result
        (map_of (scope_of scope.now) (pattern_of pat.now) (row_of body.now) (stream_copy of)) }
{
    let inside = scope.inside(alloc, pat, of.kinds.as_slice())?;
    let row = typed_row(alloc, &inside, Divisions::Allowed, body)?;
    boxed(alloc, row.kinds, Stream::Map(of.stream, row.exprs))
}

/// A test of rows of these kinds.
fn test<'a>(
    alloc: Global,
    scope: &Scope<'a>,
    pat: &'a TPat,
    e: &TExpr,
    kinds: &[Kind],
) -> Result<TypedExpr, TypeFault>
    requires room { HasRoomFor scope.now 1 }
    requires narrow { length kinds.now ≤ MOST_COMPONENTS }
    ensures { IsOneUnlessRefused expr_term result
        (row_test (scope_of scope.now) (pattern_of pat.now) (formula_of e.now) kinds.now) }
{
    let inside = scope.inside(alloc, pat, kinds)?;
    of_this_kind(alloc, &inside, Kind::Bool, e)
}

/// A stream whose rows are tested.
fn test_stage(form: RowTest, of: Box<Stream>, e: Expr) -> Stream
    ensures pipe { pipe_of result ≡ tested_pipe form (pipe_of of.value) (term_of e) }
    ensures words { pipe_has_words (pipe_of result)
        ≡ (pipe_has_words (pipe_of of.value) && has_words (term_of e)) }
{
    match form {
        RowTest::Filter => Stream::Filter(of, e),
        RowTest::TakeWhile => Stream::TakeWhile(of, e),
    }
}

/// The rows that pass a test, or those up to the first that fails it.
pub fn tested<'a>(
    alloc: Global,
    scope: &Scope<'a>,
    form: RowTest,
    pat: &'a TPat,
    e: &TExpr,
    of: TypedStream,
) -> Result<TypedStream, TypeFault>
    requires room { HasRoomFor scope.now 1 }
    ensures { IsOneUnlessRefused stream_copy result
        (test_of (scope_of scope.now) (pattern_of pat.now) (formula_of e.now) (stream_copy of)
        (tested_pipe form)) }
{
    let test = test(alloc, scope, pat, e, of.kinds.as_slice())?;
    let stream = test_stage(form, of.stream, Box::into_inner(test.expr));
    boxed(alloc, of.kinds, stream)
}

/// A stream whose rows are counted.
fn count_stage(form: RowCount, of: Box<Stream>, e: Expr) -> Stream
    ensures pipe { pipe_of result ≡ counted_pipe form (pipe_of of.value) (term_of e) }
    ensures words { pipe_has_words (pipe_of result)
        ≡ (pipe_has_words (pipe_of of.value) && has_words (term_of e)) }
{
    match form {
        RowCount::Take => Stream::Take(of, e),
        RowCount::Drop => Stream::Drop(of, e),
    }
}

/// So many rows from the first on, or the rows but for these.
pub fn counted(
    alloc: Global,
    scope: &Scope,
    form: RowCount,
    count: &TExpr,
    of: TypedStream,
) -> Result<TypedStream, TypeFault>
    ensures { IsOneUnlessRefused stream_copy result
        (count_of (scope_of scope.now) (formula_of count.now) (stream_copy of)
        (counted_pipe form)) }
{
    let count = opening_of_kind(alloc, scope, Kind::Int, count)?;
    let stream = count_stage(form, of.stream, Box::into_inner(count.expr));
    boxed(alloc, of.kinds, stream)
}

/// The states after each row.
pub fn scanned<'a>(
    alloc: Global,
    scope: &Scope<'a>,
    seed: &TRow,
    state: &'a TPat,
    pat: &'a TPat,
    next: &TRow,
    of: TypedStream,
) -> Result<TypedStream, TypeFault>
    requires room { HasRoomFor scope.now 1 }
    ensures { IsOneUnlessRefused stream_copy result
        (scan_of (scope_of scope.now) (row_of seed.now) (pattern_of state.now)
        (pattern_of pat.now) (row_of next.now) (stream_copy of)) }
{
    let State { seed, next } = folding(alloc, scope, seed, state, pat, next, of.kinds.as_slice())?;
    boxed(
        alloc,
        seed.kinds,
        Stream::Scan {
            of: of.stream,
            seed: seed.exprs,
            next: next.exprs,
        },
    )
}
