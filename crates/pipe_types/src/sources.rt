//! The sources that hold no stream.

ghost use Rattle.std.specs.Prelude.{◌≡◌, ◌≤◌, ◌++◌, [], ◌∷◌, IsTrue, Ok, length, IfOk};
ghost use Rattle.pipe_limits.specs.declared.TheConstants.{MOST_COMPONENTS};
ghost use Rattle.list_denotation.specs.Copies.{pipe_of};
ghost use Rattle.list_denotation.specs.Literals.{pipe_has_words};
ghost use Rattle.pipe_tree.specs.TreeCopies.{formula_of, label_of, pattern_of, row_of};
ghost use Rattle.kind_rules.specs.Checked.{IsOneUnlessRefused};
ghost use Rattle.kind_rules.specs.Streams.{array_of, range_of, stream, turn_of, unfold_of, zip_of};
ghost use Rattle.pipe_kinds.specs.Copies.{scope_of};
ghost use Rattle.pipe_types.specs.Copies.{stream_copy, turn_copy};
ghost use Rattle.pipe_types.specs.Room.{HasRoomFor};

use crate::typed_stream::TypedStream;
use kind_rules::TypeFault;
use list_denotation::{Kind, Kinds, Stream};
use pipe_kinds::{
    Divisions, Scope, TypedExpr, TypedRow, array_named, next_state, opening_of_kind, typed_row,
};
use pipe_limits::MOST_COMPONENTS;
use pipe_tree::{Name, TExpr, TPat, TRow};
use std::alloc::Global;
use strm_num::NoMemory;

/// A stream in a box, with the kinds of its rows.
pub fn boxed(alloc: Global, kinds: Kinds, rows: Stream) -> Result<TypedStream, TypeFault>
    requires narrow { length kinds ≤ MOST_COMPONENTS }
    requires words { IsTrue (pipe_has_words (pipe_of rows)) }
    ensures { IsOneUnlessRefused stream_copy result (Ok (stream kinds (pipe_of rows))) }
{
    let stream = Box::new(alloc, rows)?;
    Ok(TypedStream { kinds, stream })
}

/// The kinds of a row that is one number.
fn one_int(alloc: Global) -> Result<Kinds, NoMemory>
    ensures { IfOk result (λ kinds. kinds ≡ Kind.Int ∷ []) }
{
    let mut kinds = Kinds::new(alloc);
    kinds.push(Kind::Int)?;
    Ok(kinds)
}

/// The items of the array input that is named.
pub fn items(alloc: Global, scope: &Scope, name: &Name) -> Result<TypedStream, TypeFault>
    ensures { IsOneUnlessRefused stream_copy result
        (array_of (scope_of scope.now) (label_of name.now)) }
{
    let i = array_named(name.at, scope.look_up(name.text.as_slice()))?;
    let kinds = one_int(alloc)?;
    boxed(alloc, kinds, Stream::Array(i))
}

/// The numbers of a range.
pub fn range(
    alloc: Global,
    scope: &Scope,
    low: &TExpr,
    high: &TExpr,
) -> Result<TypedStream, TypeFault>
    ensures { IsOneUnlessRefused stream_copy result
        (range_of (scope_of scope.now) (formula_of low.now) (formula_of high.now)) }
{
    let low = opening_of_kind(alloc, scope, Kind::Int, low)?;
    let high = opening_of_kind(alloc, scope, Kind::Int, high)?;
    let kinds = one_int(alloc)?;
    boxed(
        alloc,
        kinds,
        Stream::Range(Box::into_inner(low.expr), Box::into_inner(high.expr)),
    )
}

/// A turn of an unfolding: its guard, the item and the next state.
#[derive(Drop)]
pub struct Turn {
    pub guard: TypedExpr,
    pub item: TypedRow,
    pub next: TypedRow,
}

/// A turn of an unfolding over a state of these kinds, in the scope inside its pattern.
fn typed_turn(
    alloc: Global,
    inside: &Scope,
    state: &[Kind],
    guard: &TExpr,
    item: &TRow,
    then: &TRow,
) -> Result<Turn, TypeFault>
    ensures { IsOneUnlessRefused turn_copy result
        (turn_of (scope_of inside.now) state.now (formula_of guard.now) (row_of item.now)
        (row_of then.now)) }
{
    let guard = opening_of_kind(alloc, inside, Kind::Bool, guard)?;
    let item = typed_row(alloc, inside, Divisions::Allowed, item)?;
    let next = next_state(alloc, inside, state, then)?;
    Ok(Turn { guard, item, next })
}

/// An unfolding.
pub fn unfolding<'a>(
    alloc: Global,
    scope: &Scope<'a>,
    first: &TRow,
    pat: &'a TPat,
    guard: &TExpr,
    item: &TRow,
    then: &TRow,
) -> Result<TypedStream, TypeFault>
    requires room { HasRoomFor scope.now 1 }
    ensures { IsOneUnlessRefused stream_copy result
        (unfold_of (scope_of scope.now) (row_of first.now) (pattern_of pat.now)
        (formula_of guard.now) (row_of item.now) (row_of then.now)) }
{
    let seed = typed_row(alloc, scope, Divisions::Refused, first)?;
    let inside = scope.inside(alloc, pat, seed.kinds.as_slice())?;
    let Turn { guard, item, next } = typed_turn(
        alloc,
        &inside,
        seed.kinds.as_slice(),
        guard,
        item,
        then,
    )?;
    boxed(
        alloc,
        item.kinds,
        Stream::Unfold {
            seed: seed.exprs,
            guard: Box::into_inner(guard.expr),
            item: item.exprs,
            next: next.exprs,
        },
    )
}

/// The kinds of two rows that are joined.
fn joined(left: Kinds, right: &[Kind]) -> Result<Kinds, NoMemory>
    ensures { IfOk result (λ kinds. kinds ≡ left ++ right.now) }
{
    let mut kinds = left;
    for kind in right {
        kinds.push(*kind)?;
    }
    Ok(kinds)
}

/// The rows of both arms of a `zip` at this offset, or the fault `TooWide` there.
pub fn zipped(
    alloc: Global,
    at: u32,
    left: TypedStream,
    right: TypedStream,
) -> Result<TypedStream, TypeFault>
    ensures { IsOneUnlessRefused stream_copy result
        (zip_of at (stream_copy left) (stream_copy right)) }
{
    if left.kinds.len() + right.kinds.len() > MOST_COMPONENTS as u64 {
        return Err(TypeFault::TooWide(at));
    }
    let kinds = joined(left.kinds, right.kinds.as_slice())?;
    boxed(alloc, kinds, Stream::Zip(left.stream, right.stream))
}
