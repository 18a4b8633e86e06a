//! The variables of a scope, and the statements of an expression.

use expr_lower::lower;
use list_denotation::Expr;
use state_alloc::Slots;
use std::alloc::Global;
use strm_num::NoMemory;

/// Whether the words of a scope that is bound, aliased, given up in part and bound again stand in the
/// variables that they should.
fn scope_is_right(alloc: Global) -> Result<bool, NoMemory> {
    let mut slots = Slots::new(alloc, 2);
    let first = slots.bind(3)?;
    let middle = slots.var_of(1);
    slots.alias(middle)?;
    let aliased = slots.rows.as_slice() == [2, 3, 4, 3].as_slice();
    slots.unbind(2);
    let kept = slots.rows.as_slice() == [2, 3].as_slice();
    let again = slots.bind(2)?;
    let bound = slots.rows.as_slice() == [2, 3, 5, 6].as_slice();
    let ends = [first, again, slots.first_temp, slots.temps, slots.next] == [2, 5, 0, 2, 7];
    Ok(aliased && kept && bound && ends)
}

#[test]
fn a_scope(rt: HostRuntime) {
    assert!(rt; scope_is_right(rt.alloc()).expect(&rt, "memory"));
}

/// Whether a variable that no word stands in, and a scope behind it, are where they should be.
fn inner_scope_is_right(alloc: Global) -> bool {
    let mut slots = Slots::new(alloc, 2);
    let index = slots.reserve_variables(1);
    let inner = slots.empty_scope(alloc);
    inner.rows.is_empty() && [index, inner.next, inner.temps] == [2, 3, 2]
}

#[test]
fn an_inner_scope(rt: HostRuntime) {
    assert!(rt; inner_scope_is_right(rt.alloc()));
}

/// A number is one statement.
#[test]
fn a_number_as_statements(rt: HostRuntime) {
    let slots = Slots::new(rt.alloc(), 0);
    let statements = lower(rt.alloc(), &Expr::Lit(7), &slots, 0).expect(&rt, "memory");
    assert!(rt; statements.len() == 1);
}
