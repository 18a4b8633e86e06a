//! Guards that are joined, and the one that always holds.

ghost use Rattle.std.specs.Prelude.{◌≡◌, IfOk};
ghost use Rattle.list_denotation.specs.Copies.{term_of};
ghost use Rattle.stage_machines.specs.JoinedGuards.{is_always, join_guards};

use list_denotation::{Expr, boxed};
use std::alloc::Global;
use strm_num::NoMemory;

/// Whether a guard is the one that is always true.
pub fn is_always(e: &Expr) -> bool
    ensures { result ≡ is_always (term_of e.now) }
{
    matches!(e, Expr::Truth(true))
}

/// A guard that is true where both are. The one error is `NoMemory`.
pub fn join_guards(alloc: Global, g: Box<Expr>, h: Box<Expr>) -> Result<Box<Expr>, NoMemory>
    ensures { IfOk result (λ made. term_of made.value
        ≡ join_guards (term_of g.value) (term_of h.value)) }
{
    if is_always(&g) {
        return Ok(h);
    }
    if is_always(&h) {
        return Ok(g);
    }
    boxed(alloc, Expr::And(g, h))
}
