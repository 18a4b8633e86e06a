//! Expressions and rows of expressions, once more.

ghost use Rattle.std.specs.Prelude.{◌≡◌, ◌++◌, IfOk, OnOk};
ghost use Rattle.list_denotation.specs.Copies.{term_of, terms_of};

use crate::expr::{Expr, Exprs};
use std::alloc::Global;
use strm_num::{List, NoMemory};

/// The expression in a box. The one error is `NoMemory`.
pub fn boxed(alloc: Global, e: Expr) -> Result<Box<Expr>, NoMemory>
    ensures { IfOk result (λ made. term_of made.value ≡ term_of e) }
{
    Ok(Box::new(alloc, e)?)
}

/// The same expression once more. The one error is `NoMemory`.
pub fn copy(alloc: Global, e: &Expr) -> Result<Box<Expr>, NoMemory>
    ensures { IfOk result (λ made. term_of made.value ≡ term_of e.now) }
{
    match e {
        Expr::Lit(w) => boxed(alloc, Expr::Lit(*w)),
        Expr::Truth(b) => boxed(alloc, Expr::Truth(*b)),
        Expr::Var(k) => boxed(alloc, Expr::Var(*k)),
        Expr::Param(k) => boxed(alloc, Expr::Param(*k)),
        Expr::Len(k) => boxed(alloc, Expr::Len(*k)),
        Expr::Neg(a) => {
            let a = copy(alloc, a)?;
            boxed(alloc, Expr::Neg(a))
        }
        Expr::Not(a) => {
            let a = copy(alloc, a)?;
            boxed(alloc, Expr::Not(a))
        }
        Expr::Bin(op, a, b) => {
            let a = copy(alloc, a)?;
            let b = copy(alloc, b)?;
            boxed(alloc, Expr::Bin(*op, a, b))
        }
        Expr::And(a, b) => {
            let a = copy(alloc, a)?;
            let b = copy(alloc, b)?;
            boxed(alloc, Expr::And(a, b))
        }
        Expr::Or(a, b) => {
            let a = copy(alloc, a)?;
            let b = copy(alloc, b)?;
            boxed(alloc, Expr::Or(a, b))
        }
        Expr::If(c, a, b) => {
            let c = copy(alloc, c)?;
            let a = copy(alloc, a)?;
            let b = copy(alloc, b)?;
            boxed(alloc, Expr::If(c, a, b))
        }
    }
}

/// Appends copies of the expressions of a row. The one error is `NoMemory`.
#[tactic(auto, using(crate::proofs::MadeRows::copy_steps))]
pub fn push_copies(alloc: Global, es: &Exprs, made: &mut Exprs) -> Result<(), NoMemory>
    ensures { OnOk result (terms_of made.new ≡ terms_of made.old ++ terms_of es.now) }
{
    for i in 0..es.len() {
        made.push(Box::into_inner(copy(alloc, es.get(i))?))?;
    }
    Ok(())
}

/// The same row once more. The one error is `NoMemory`.
pub fn copies(alloc: Global, es: &Exprs) -> Result<Exprs, NoMemory>
    ensures { IfOk result (λ made. terms_of made ≡ terms_of es.now) }
{
    let mut made = List::new(alloc);
    push_copies(alloc, es, &mut made)?;
    Ok(made)
}

/// A row and then another. The one error is `NoMemory`.
pub fn both_rows(alloc: Global, first: &Exprs, second: &Exprs) -> Result<Exprs, NoMemory>
    ensures { IfOk result (λ made. terms_of made ≡ terms_of first.now ++ terms_of second.now) }
{
    let mut made = copies(alloc, first)?;
    push_copies(alloc, second, &mut made)?;
    Ok(made)
}
