//! The tests that comparisons become.

ghost use Rattle.std.specs.Prelude.{◌≡◌, IfOk};
ghost use Rattle.loop_ir.specs.Statements.{Same};
ghost use Rattle.loop_ir.specs.StatementCopies.{operand_of, test_of};
ghost use Rattle.expr_phrases.specs.Phrases.{is_zero, flipped_sign, signed_less, comparison_test};

use crate::boxes::{boxed_test, boxed_word, is_natural, opposite};
use list_denotation::BinOp;
use loop_ir::{T, W, WOp};
use std::alloc::Global;
use strm_num::{NoMemory, SIGN};

/// The word with its sign bit turned round, as adding the bit modulo 2^64 does. That of a constant
/// is a constant.
fn flipped_sign(alloc: Global, w: Box<W>) -> Result<Box<W>, NoMemory>
    ensures { IfOk result (λ made. operand_of made.value ≡ flipped_sign (operand_of w.value)) }
{
    if let W::Const(c) = &*w {
        return boxed_word(alloc, W::Const(c.wrapping_add(SIGN)));
    }
    let sign = boxed_word(alloc, W::Const(SIGN))?;
    boxed_word(alloc, W::Bin(WOp::Xor, w, sign))
}

fn is_zero(w: &W) -> bool
    ensures { result ≡ is_zero (operand_of w.now) }
{
    matches!(w, W::Const(0))
}

/// Whether the signed value of `a` is below that of `b`. Below 0 are those with the sign bit.
fn signed_less(alloc: Global, a: Box<W>, b: Box<W>) -> Result<Box<T>, NoMemory>
    ensures { IfOk result (λ t. test_of t.value
        ≡ signed_less (operand_of a.value) (operand_of b.value)) }
{
    if is_zero(&b) {
        let natural = is_natural(alloc, &a)?;
        return boxed_test(alloc, T::Not(natural));
    }
    let a = flipped_sign(alloc, a)?;
    let b = flipped_sign(alloc, b)?;
    boxed_test(alloc, T::Less(Box::into_inner(a), Box::into_inner(b)))
}

/// Whether the words are the same.
fn same(alloc: Global, a: Box<W>, b: Box<W>) -> Result<Box<T>, NoMemory>
    ensures { IfOk result (λ t. test_of t.value ≡ Same (operand_of a.value) (operand_of b.value)) }
{
    boxed_test(alloc, T::Same(Box::into_inner(a), Box::into_inner(b)))
}

/// The test of a comparison of signed values, and of an operator that compares nothing whether the
/// words are the same. The one error is `NoMemory`.
pub fn comparison_test(alloc: Global, op: BinOp, a: Box<W>, b: Box<W>) -> Result<Box<T>, NoMemory>
    ensures { IfOk result (λ t. test_of t.value
        ≡ comparison_test op (operand_of a.value) (operand_of b.value)) }
{
    match op {
        BinOp::Ne => opposite(alloc, same(alloc, a, b)?),
        BinOp::Lt => signed_less(alloc, a, b),
        BinOp::Le => opposite(alloc, signed_less(alloc, b, a)?),
        BinOp::Gt => signed_less(alloc, b, a),
        BinOp::Ge => opposite(alloc, signed_less(alloc, a, b)?),
        _ => same(alloc, a, b),
    }
}
