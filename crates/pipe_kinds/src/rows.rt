//! The kinds of rows, and what they stand for.

ghost use Rattle.std.specs.Prelude.{◌≡◌, List, length, map, IfOk};
ghost use Rattle.pipe_limits.specs.declared.TheConstants.{MOST_COMPONENTS};
ghost use Rattle.list_denotation.specs.Terms.{Term};
ghost use Rattle.pipe_tree.specs.TreeCopies.{formula_of, row_of as row_copy};
ghost use Rattle.kind_rules.specs.Checked.{IsOneUnlessRefused};
ghost use Rattle.kind_rules.specs.Rows.{alike_parts, next_of, parts_of, some_parts_of};
ghost use Rattle.pipe_kinds.specs.Copies.{row_terms, scope_of, typed_of, typed_row_of};
ghost use Rattle.pipe_kinds.specs.RowParts.{part_of};

use crate::expressions::expression;
use crate::names::is_wide;
use crate::openings::opening;
use crate::scope::Scope;
use crate::signs::is_kind;
use crate::typed::{TypedExpr, TypedRow};
use kind_rules::TypeFault;
use list_denotation::{Exprs, Kind, Kinds};
use pipe_limits::MOST_COMPONENTS;
use pipe_tree::{TExpr, TRow};
use std::alloc::Global;

/// Whether divisions may stand in a row's parts: they may not in opening expressions.
#[derive(Clone, Copy)]
pub enum Divisions {
    Allowed,
    Refused,
}

/// A part of a row.
fn part(
    alloc: Global,
    scope: &Scope,
    divisions: Divisions,
    e: &TExpr,
) -> Result<TypedExpr, TypeFault>
    ensures { IsOneUnlessRefused typed_of result
        (part_of divisions (scope_of scope.now) (formula_of e.now)) }
{
    match divisions {
        Divisions::Allowed => expression(alloc, scope, e),
        Divisions::Refused => opening(alloc, scope, e),
    }
}

/// Expressions that stand beside one another in a row.
fn parts(
    alloc: Global,
    scope: &Scope,
    divisions: Divisions,
    parts: &[TExpr],
) -> Result<TypedRow, TypeFault>
    ensures parts { IsOneUnlessRefused typed_row_of result
        (parts_of (part_of divisions (scope_of scope.now)) MOST_COMPONENTS (map formula_of parts.now)) }
    ensures wide { IfOk result (λ row. length row.kinds ≡ length parts.now) }
{
    let mut kinds = Kinds::new(alloc);
    let mut exprs = Exprs::new(alloc);
    for e in parts {
        if kinds.len() == MOST_COMPONENTS as u64 {
            return Err(TypeFault::TooWide(e.at));
        }
        let typed = part(alloc, scope, divisions, e)?;
        kinds.push(typed.kind)?;
        exprs.push(Box::into_inner(typed.expr))?;
    }
    Ok(TypedRow { kinds, exprs })
}

/// A row, or its first fault. A first state is a row of opening expressions, in which divisions are
/// refused.
pub fn typed_row(
    alloc: Global,
    scope: &Scope,
    divisions: Divisions,
    row: &TRow,
) -> Result<TypedRow, TypeFault>
    ensures row { IsOneUnlessRefused typed_row_of result
        (some_parts_of (part_of divisions (scope_of scope.now)) (row_copy row.now).at
        (row_copy row.now).parts) }
    ensures wide { IfOk result (λ typed. length typed.kinds ≡ length row.now.parts) }
{
    match row.parts.as_slice() {
        [] => Err(TypeFault::WidthMismatch(row.at)),
        exprs => parts(alloc, scope, divisions, exprs),
    }
}

/// Tests that each part of a row is of the kind at its place in a state.
fn alike_parts(parts: &[TExpr], kinds: &[Kind], state: &[Kind]) -> Result<(), TypeFault>
    requires parts { length parts.now ≡ length kinds.now }
    requires state { length parts.now ≡ length state.now }
    ensures { (whole : List Term) → IsOneUnlessRefused (λ _. whole) result
        (alike_parts (map formula_of parts.now) kinds.now state.now whole) }
{
    for (i, e) in parts.iter().enumerate() {
        if !is_kind(kinds[i], state[i]) {
            return Err(TypeFault::Mismatch(e.at));
        }
    }
    Ok(())
}

/// A next state, which is as wide as the state and has its kinds, or its first fault.
pub fn next_state(
    alloc: Global,
    scope: &Scope,
    state: &[Kind],
    row: &TRow,
) -> Result<TypedRow, TypeFault>
    ensures { IsOneUnlessRefused row_terms result
        (next_of (scope_of scope.now) state.now (row_copy row.now)) }
{
    let typed = typed_row(alloc, scope, Divisions::Allowed, row)?;
    if !is_wide(typed.kinds.len() as usize, state.len()) {
        return Err(TypeFault::WidthMismatch(row.at));
    }
    alike_parts(row.parts.as_slice(), typed.kinds.as_slice(), state)?;
    Ok(typed)
}
