//! Rows of expressions.

ghost use Rattle.std.specs.Prelude.{◌≡◌, ◌+◌, ◌<◌, ◌^◌, [], ◌∷◌, length, IfOk};
ghost use Rattle.list_denotation.specs.Copies.{term_of, terms_of};
ghost use Rattle.list_denotation.specs.TermRows.{variables};

use crate::expr::{Expr, Exprs};
use std::alloc::Global;
use strm_num::{List, NoMemory};

/// The number of a row's expressions, which is below 2^32.
#[tactic(auto, using(crate::proofs::MadeRows::terms_length))]
pub fn width(es: &Exprs) -> u32
    requires { length (terms_of es.now) < 2 ^ 32 }
    ensures { result ≡ length (terms_of es.now) }
{
    es.len() as u32
}

/// A row of one expression. The one error is `NoMemory`.
pub fn single(alloc: Global, e: Box<Expr>) -> Result<Exprs, NoMemory>
    ensures { IfOk result (λ made. terms_of made ≡ term_of e.value ∷ []) }
{
    let mut made = List::new(alloc);
    made.push(Box::into_inner(e))?;
    Ok(made)
}

/// So many bound words from one on. The one error is `NoMemory`.
#[tactic(auto, using(crate::proofs::MadeRows::variable_steps))]
pub fn variables(alloc: Global, first: u32, count: u32) -> Result<Exprs, NoMemory>
    requires { first + count < 2 ^ 32 }
    ensures { IfOk result (λ made. terms_of made ≡ variables first count) }
{
    let mut made = List::new(alloc);
    for i in 0..count {
        made.push(Expr::Var(first + i))?;
    }
    Ok(made)
}
