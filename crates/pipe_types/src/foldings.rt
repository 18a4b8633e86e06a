//! What stands behind `scan` and `fold`: a state, and what it becomes with each row.

ghost use Rattle.std.specs.Prelude.{◌≤◌, length};
ghost use Rattle.pipe_limits.specs.declared.TheConstants.{MOST_COMPONENTS};
ghost use Rattle.pipe_tree.specs.TreeCopies.{pattern_of, row_of};
ghost use Rattle.kind_rules.specs.Checked.{IsOneUnlessRefused};
ghost use Rattle.kind_rules.specs.Streams.{folding_of};
ghost use Rattle.pipe_kinds.specs.Copies.{scope_of};
ghost use Rattle.pipe_types.specs.Copies.{state_of};
ghost use Rattle.pipe_types.specs.Room.{HasRoomFor};

use kind_rules::TypeFault;
use list_denotation::Kind;
use pipe_kinds::{Divisions, Scope, TypedRow, next_state, typed_row};
use pipe_tree::{TPat, TRow};
use std::alloc::Global;

/// A state: the first one, and the one that it becomes with a row.
#[derive(Drop)]
pub struct State {
    pub seed: TypedRow,
    pub next: TypedRow,
}

/// A state over rows of these kinds, or its first fault.
pub fn folding<'a>(
    alloc: Global,
    scope: &Scope<'a>,
    first: &TRow,
    state: &'a TPat,
    pat: &'a TPat,
    then: &TRow,
    row: &[Kind],
) -> Result<State, TypeFault>
    requires room { HasRoomFor scope.now 1 }
    requires narrow { length row.now ≤ MOST_COMPONENTS }
    ensures { IsOneUnlessRefused state_of result
        (folding_of (scope_of scope.now) (row_of first.now) (pattern_of state.now)
        (pattern_of pat.now) (row_of then.now) row.now) }
{
    let seed = typed_row(alloc, scope, Divisions::Refused, first)?;
    let inside = scope.inside_both(alloc, state, seed.kinds.as_slice(), pat, row)?;
    let next = next_state(alloc, &inside, seed.kinds.as_slice(), then)?;
    Ok(State { seed, next })
}
