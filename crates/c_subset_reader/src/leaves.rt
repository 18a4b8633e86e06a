//! Whether statements name nothing that isn't declared.

ghost use Rattle.std.specs.Prelude.{◌≡◌};
ghost use Rattle.loop_ir.specs.DeclaredNames.{block_names, declared_names, operand_names, statement_names, test_names};
ghost use Rattle.loop_ir.specs.StatementCopies.{block_of, operand_of, statement_of, test_of};

use crate::names::is_declared_letter;
use c_words::Letter;
use loop_ir::{InputKinds, Stmt, T, W};

/// Whether each name in an operand is declared.
fn operand_names(w: &W, params: &InputKinds, vars: u32) -> bool
    ensures { result ≡ operand_names (declared_names params.now vars) (operand_of w.now) }
{
    match w {
        W::Const(_) => true,
        W::Var(v) => is_declared_letter(Letter::Variable, *v, params, vars),
        W::Len(a) => is_declared_letter(Letter::Length, *a, params, vars),
        W::Int(k) => is_declared_letter(Letter::Int, *k, params, vars),
        W::Bin(_, a, b) => operand_names(a, params, vars) && operand_names(b, params, vars),
    }
}

/// Whether each name in a test is declared.
fn test_names(t: &T, params: &InputKinds, vars: u32) -> bool
    ensures { result ≡ test_names (declared_names params.now vars) (test_of t.now) }
{
    match t {
        T::Less(a, b) | T::Same(a, b) => {
            operand_names(a, params, vars) && operand_names(b, params, vars)
        }
        T::Both(a, b) | T::Either(a, b) => {
            test_names(a, params, vars) && test_names(b, params, vars)
        }
        T::Not(a) => test_names(a, params, vars),
    }
}

/// Whether each name in a statement is declared.
#[cycle(statements)]
fn statement_names(s: &Stmt, params: &InputKinds, vars: u32) -> bool
    ensures { result ≡ statement_names (declared_names params.now vars) (statement_of s.now) }
{
    match s {
        Stmt::Set(v, w) => {
            is_declared_letter(Letter::Variable, *v, params, vars) && operand_names(w, params, vars)
        }
        Stmt::Read(v, a, w) => {
            is_declared_letter(Letter::Variable, *v, params, vars)
                && is_declared_letter(Letter::Array, *a, params, vars)
                && operand_names(w, params, vars)
        }
        Stmt::If(t, a, b) => {
            test_names(t, params, vars)
                && block_names(a.as_slice(), params, vars)
                && block_names(b.as_slice(), params, vars)
        }
        Stmt::Loop(t, body) => {
            test_names(t, params, vars) && block_names(body.as_slice(), params, vars)
        }
        Stmt::Emit(w) => operand_names(w, params, vars),
        Stmt::EndRow | Stmt::Ret(_) => true,
    }
}

/// Whether each name in statements is declared.
#[cycle(statements)]
pub fn block_names(body: &[Stmt], params: &InputKinds, vars: u32) -> bool
    ensures { result ≡ block_names (declared_names params.now vars) (block_of body.now) }
{
    for s in body {
        if !statement_names(s, params, vars) {
            return false;
        }
    }
    true
}
