//! Words and tests in boxes, as parts of others.

ghost use Rattle.std.specs.Prelude.{◌≡◌, IfOk};
ghost use Rattle.loop_ir.specs.Statements.{Same, Const, Not};
ghost use Rattle.loop_ir.specs.StatementCopies.{operand_of, test_of};
ghost use Rattle.expr_phrases.specs.Phrases.{minus, is_natural, opposite};

use loop_ir::{T, W, WOp};
use std::alloc::Global;
use strm_num::{NoMemory, SIGN};

/// The word in a box. The one error is `NoMemory`.
pub fn boxed_word(alloc: Global, w: W) -> Result<Box<W>, NoMemory>
    ensures { IfOk result (λ made. operand_of made.value ≡ operand_of w) }
{
    Ok(Box::new(alloc, w)?)
}

/// The same word once more.
pub fn copy(alloc: Global, w: &W) -> Result<Box<W>, NoMemory>
    ensures { IfOk result (λ made. operand_of made.value ≡ operand_of w.now) }
{
    match w {
        W::Const(c) => boxed_word(alloc, W::Const(*c)),
        W::Var(v) => boxed_word(alloc, W::Var(*v)),
        W::Len(a) => boxed_word(alloc, W::Len(*a)),
        W::Int(k) => boxed_word(alloc, W::Int(*k)),
        W::Bin(op, a, b) => {
            let a = copy(alloc, a)?;
            let b = copy(alloc, b)?;
            boxed_word(alloc, W::Bin(*op, a, b))
        }
    }
}

/// 0 minus the word, modulo 2^64. The one error is `NoMemory`.
pub fn minus(alloc: Global, w: Box<W>) -> Result<Box<W>, NoMemory>
    ensures { IfOk result (λ made. operand_of made.value ≡ minus (operand_of w.value)) }
{
    let zero = boxed_word(alloc, W::Const(0))?;
    boxed_word(alloc, W::Bin(WOp::Sub, zero, w))
}

/// Whether the signed value of the word isn't below 0.
pub fn is_natural(alloc: Global, w: &W) -> Result<Box<T>, NoMemory>
    ensures { IfOk result (λ t. test_of t.value ≡ is_natural (operand_of w.now)) }
{
    let w = copy(alloc, w)?;
    boxed_test(alloc, T::Less(Box::into_inner(w), W::Const(SIGN)))
}

/// The test in a box. The one error is `NoMemory`.
pub fn boxed_test(alloc: Global, t: T) -> Result<Box<T>, NoMemory>
    ensures { IfOk result (λ made. test_of made.value ≡ test_of t) }
{
    Ok(Box::new(alloc, t)?)
}

/// The test that holds where this one doesn't: of a `!` what it negates. The one error is
/// `NoMemory`.
pub fn opposite(alloc: Global, t: Box<T>) -> Result<Box<T>, NoMemory>
    ensures { IfOk result (λ made. test_of made.value ≡ opposite (test_of t.value)) }
{
    match Box::into_inner(t) {
        T::Not(inner) => Ok(inner),
        t => {
            let inner = boxed_test(alloc, t)?;
            boxed_test(alloc, T::Not(inner))
        }
    }
}

/// Whether the word isn't 0, which is whether it is true. The one error is `NoMemory`.
pub fn is_not_zero(alloc: Global, w: W) -> Result<Box<T>, NoMemory>
    ensures { IfOk result (λ t. test_of t.value ≡ Not (Same (operand_of w) (Const 0))) }
{
    let zero = boxed_test(alloc, T::Same(w, W::Const(0)))?;
    boxed_test(alloc, T::Not(zero))
}
