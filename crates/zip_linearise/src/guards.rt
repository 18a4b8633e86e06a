//! Guards of machines that are made of two.

ghost use Rattle.std.specs.Prelude.{◌≡◌, IfOk};
ghost use Rattle.list_denotation.specs.Copies.{term_of};
ghost use Rattle.list_denotation.specs.Terms.{Var};
ghost use Rattle.zip_linearise.specs.HeldRows.{flag_or};
ghost use Rattle.zip_linearise.specs.ZipMachine.{due_guard};

use list_denotation::{Expr, boxed};
use stage_machines::{is_always, join_guards};
use std::alloc::Global;
use strm_num::NoMemory;

/// A guard that is true where the flag, a bound word, is set or another guard is true. The one error
/// is `NoMemory`.
pub fn flag_or(alloc: Global, flag: u32, g: Box<Expr>) -> Result<Box<Expr>, NoMemory>
    ensures { IfOk result (λ made. term_of made.value ≡ flag_or (Var flag) (term_of g.value)) }
{
    if is_always(&g) {
        return Ok(g);
    }
    let set = boxed(alloc, Expr::Var(flag))?;
    boxed(alloc, Expr::Or(set, g))
}

/// The guard of the right machine where the flag, a bound word, is set, and else that of the left one.
/// The one error is `NoMemory`.
pub fn due_guard(
    alloc: Global,
    flag: u32,
    right: Box<Expr>,
    left: Box<Expr>,
) -> Result<Box<Expr>, NoMemory>
    ensures { IfOk result (λ made. term_of made.value
        ≡ due_guard (Var flag) (term_of right.value) (term_of left.value)) }
{
    if is_always(&right) {
        return flag_or(alloc, flag, left);
    }
    let set = boxed(alloc, Expr::Var(flag))?;
    let right = boxed(alloc, Expr::And(set, right))?;
    let set = boxed(alloc, Expr::Var(flag))?;
    let unset = boxed(alloc, Expr::Not(set))?;
    let left = join_guards(alloc, unset, left)?;
    boxed(alloc, Expr::Or(right, left))
}
