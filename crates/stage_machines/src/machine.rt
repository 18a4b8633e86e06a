//! Machines and their parts, as the code has them.

ghost use Rattle.std.specs.Prelude.{◌≡◌, IfOk};
ghost use Rattle.list_denotation.specs.Copies.{term_of, terms_of};
ghost use Rattle.stateful_core.specs.CoreCopies.{actions_of};
ghost use Rattle.stage_machines.specs.MachineCopies.{machine_of, parts_of};
ghost use Rattle.stage_machines.specs.MachineParts.{machine_from};

use list_denotation::{Expr, Exprs};
use stateful_core::Acts;
use std::alloc::Global;
use strm_num::NoMemory;

/// The content of one `Lin`, or of one `Tr`: a state that begins as `init`, a guard, and the acts and
/// the row of a turn, over a scope of `scope` bound words. A turn may end without a row.
#[derive(Drop)]
pub struct Machine {
    pub scope: u32,
    pub init: Exprs,
    pub guard: Expr,
    pub acts: Acts,
    pub item: Exprs,
}

/// The same, where the parts are held by another term.
#[derive(Clone, Copy)]
pub struct Parts<'a> {
    pub scope: u32,
    pub init: &'a Exprs,
    pub guard: &'a Expr,
    pub acts: &'a Acts,
    pub item: &'a Exprs,
}

impl Machine {
    /// Its parts, where they stand.
    pub fn parts(&self) -> Parts<'_>
        ensures { parts_of result ≡ machine_of self.now }
    {
        Parts {
            scope: self.scope,
            init: &self.init,
            guard: &self.guard,
            acts: &self.acts,
            item: &self.item,
        }
    }
}

/// The machine of these parts. The one error is `NoMemory`.
pub fn boxed_machine(
    alloc: Global,
    scope: u32,
    init: Exprs,
    guard: Box<Expr>,
    acts: Acts,
    item: Exprs,
) -> Result<Box<Machine>, NoMemory>
    ensures { IfOk result (λ made. machine_of made.value
        ≡ machine_from scope (terms_of init) (term_of guard.value) (actions_of acts)
        (terms_of item)) }
{
    let guard = Box::into_inner(guard);
    Ok(Box::new(
        alloc,
        Machine {
            scope,
            init,
            guard,
            acts,
            item,
        },
    )?)
}
