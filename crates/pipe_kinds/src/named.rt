//! Expressions without parts, and the arrays that are named.

ghost use Rattle.std.specs.Prelude.{◌≡◌, ℕ, IsTrue, Ok};
ghost use Rattle.list_denotation.specs.Copies.{term_of};
ghost use Rattle.list_denotation.specs.Literals.{has_words};
ghost use Rattle.kind_rules.specs.Checked.{IsOneUnlessRefused};
ghost use Rattle.kind_rules.specs.Expressions.{array_named, typed_term, value_named};
ghost use Rattle.kind_rules.specs.Expressions.{expression_of};
ghost use Rattle.pipe_kinds.specs.Copies.{scope_of, typed_of};
ghost use Rattle.pipe_tree.specs.Trees.{Len};

use crate::scope::Scope;
use crate::typed::TypedExpr;
use kind_rules::{Meaning, TypeFault};
use list_denotation::{Expr, Kind};
use pipe_lexer::InputKind;
use pipe_tree::Name;
use std::alloc::Global;

/// An expression in a box, with its kind.
pub fn boxed(alloc: Global, kind: Kind, expr: Expr) -> Result<TypedExpr, TypeFault>
    requires { IsTrue (has_words (term_of expr)) }
    ensures { IsOneUnlessRefused typed_of result (Ok (typed_term kind (term_of expr))) }
{
    let expr = Box::new(alloc, expr)?;
    Ok(TypedExpr { kind, expr })
}

/// What a name at an offset is in an expression: a bound word or an int input.
pub fn value_named(alloc: Global, at: u32, found: Option<Meaning>) -> Result<TypedExpr, TypeFault>
    ensures { IsOneUnlessRefused typed_of result (value_named at found) }
{
    match found {
        None => Err(TypeFault::Unknown(at)),
        Some(Meaning::Bound(i, kind)) => boxed(alloc, kind, Expr::Var(i)),
        Some(Meaning::Input(i, InputKind::Int)) => boxed(alloc, Kind::Int, Expr::Param(i)),
        Some(Meaning::Input(_, InputKind::Array)) => Err(TypeFault::Mismatch(at)),
    }
}

/// The position of the array input that a name at an offset stands for.
pub fn array_named(at: u32, found: Option<Meaning>) -> Result<u32, TypeFault>
    ensures { IsOneUnlessRefused (λ (i : ℕ). i) result (array_named at found) }
{
    match found {
        None => Err(TypeFault::Unknown(at)),
        Some(Meaning::Bound(_, _)) => Err(TypeFault::NotArray(at)),
        Some(Meaning::Input(_, InputKind::Int)) => Err(TypeFault::NotArray(at)),
        Some(Meaning::Input(i, InputKind::Array)) => Ok(i),
    }
}

/// The length of the array that is named.
pub fn len_of(alloc: Global, scope: &Scope, name: &Name) -> Result<TypedExpr, TypeFault>
    ensures { IsOneUnlessRefused typed_of result
        (expression_of (scope_of scope.now) (Len 0 name.now.at name.now.text)) }
{
    let i = array_named(name.at, scope.look_up(name.text.as_slice()))?;
    boxed(alloc, Kind::Int, Expr::Len(i))
}
