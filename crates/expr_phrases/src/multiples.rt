//! Whether a signed remainder is 0, which needs no sign.

ghost use Rattle.std.specs.Prelude.{◌≡◌, ◌≢◌, IfOk, OnOk};
ghost use Rattle.loop_ir.specs.StatementCopies.{operand_of, test_of};
ghost use Rattle.expr_phrases.specs.PhraseCopies.{Appends};
ghost use Rattle.expr_phrases.specs.Phrases.{divides_modulus, is_variable, magnitude_block, multiple_test};

use crate::assignments::assignment;
use crate::boxes::{boxed_word, copy, is_natural, minus};
use crate::comparison::comparison_test;
use list_denotation::BinOp;
use loop_ir::{Stmt, Stmts, T, W, WOp};
use std::alloc::Global;
use strm_num::{NoMemory, Word};

/// Whether `m` divides 2^64, as the powers of two do: then it divides a word and its negation
/// together, so a signed value's remainder is 0 where that of its word is.
pub fn divides_modulus(m: Word) -> bool
    requires { m ≢ 0 }
    ensures { result ≡ divides_modulus m }
{
    m.wrapping_neg() % m == 0
}

fn is_variable(v: u32, w: &W) -> bool
    ensures { result ≡ is_variable v (operand_of w.now) }
{
    match w {
        W::Var(u) => *u == v,
        _ => false,
    }
}

/// Appends the statement that puts the magnitude of the signed value of `w` into the variable v, in
/// which it may stand already. The one error is `NoMemory`.
#[tactic(auto, using(crate::proofs::Appends::push_steps))]
pub fn magnitude_block(alloc: Global, w: Box<W>, v: u32, block: &mut Stmts) -> Result<(), NoMemory>
    ensures { OnOk result (Appends block.old block.new (magnitude_block (operand_of w.value) v)) }
{
    let natural = is_natural(alloc, &w)?;
    let as_is = if is_variable(v, &w) {
        Stmts::new(alloc)
    } else {
        assignment(alloc, v, Box::into_inner(copy(alloc, &w)?))?
    };
    let negated = assignment(alloc, v, Box::into_inner(minus(alloc, w)?))?;
    block.push(Stmt::If(Box::into_inner(natural), as_is, negated))
}

/// The test whether the word is a multiple of `m`, or isn't one. The one error is `NoMemory`.
pub fn multiple_test(alloc: Global, op: BinOp, w: Box<W>, m: Word) -> Result<Box<T>, NoMemory>
    ensures { IfOk result (λ t. test_of t.value ≡ multiple_test op (operand_of w.value) m) }
{
    let m = boxed_word(alloc, W::Const(m))?;
    let remainder = boxed_word(alloc, W::Bin(WOp::Rem, w, m))?;
    let zero = boxed_word(alloc, W::Const(0))?;
    comparison_test(alloc, op, remainder, zero)
}
