//! The statements of signed division: unsigned division of magnitudes, with the sign set
//! afterwards.

ghost use Rattle.std.specs.Prelude.{◌≡◌, ◌^◌, IfOk, OnOk, None};
ghost use Rattle.strm_num.specs.Magnitudes.{is_negative, magnitude_of};
ghost use Rattle.loop_ir.specs.Statements.{Less, Const, Nil};
ghost use Rattle.loop_ir.specs.StatementCopies.{operand_of, test_of, block_of};
ghost use Rattle.expr_phrases.specs.Phrases.{minus, set, result_negative, division_operator, divided_magnitudes, by_dividend, zero_test, by_divisor};
ghost use Rattle.expr_phrases.specs.PhraseCopies.{division_of, Appends};

use crate::assignments::assignment;
use crate::boxes::{boxed_test, boxed_word, copy, is_natural, minus};
use loop_ir::{Stmt, Stmts, T, Verdict, W, WOp};
use std::alloc::Global;
use strm_num::{NoMemory, Word, is_negative, magnitude};

/// What a division gives.
#[derive(Clone, Copy)]
pub enum Division {
    Quotient,
    Remainder,
}

/// An operand of a division: the word that stands for it, and its value where it is a constant.
#[derive(Drop)]
pub struct Side {
    pub word: Box<W>,
    pub constant: Option<Word>,
}

/// 0 minus the word, which stays.
fn minus_of(alloc: Global, w: &W) -> Result<Box<W>, NoMemory>
    ensures { IfOk result (λ made. operand_of made.value ≡ minus (operand_of w.now)) }
{
    minus(alloc, copy(alloc, w)?)
}

/// Whether the result is negative, where the dividend and the divisor are so.
fn result_negative(d: Division, dividend: bool, divisor: bool) -> bool
    ensures { result ≡ result_negative (division_of d) dividend divisor }
{
    match d {
        Division::Quotient => dividend != divisor,
        Division::Remainder => dividend,
    }
}

fn operator(d: Division) -> WOp
    ensures { result ≡ division_operator (division_of d) }
{
    match d {
        Division::Quotient => WOp::Div,
        Division::Remainder => WOp::Rem,
    }
}

/// The division of two magnitudes, with the sign that these signs give it. The divisor stays.
fn divided_magnitudes(
    alloc: Global,
    d: Division,
    x: Box<W>,
    y: &W,
    dividend: bool,
    divisor: bool,
) -> Result<Box<W>, NoMemory>
    ensures { IfOk result (λ w. operand_of w.value
        ≡ divided_magnitudes (division_of d) (operand_of x.value) (operand_of y.now)
        dividend divisor) }
{
    let y = copy(alloc, y)?;
    let divided = boxed_word(alloc, W::Bin(operator(d), x, y))?;
    if result_negative(d, dividend, divisor) {
        minus(alloc, divided)
    } else {
        Ok(divided)
    }
}

/// Appends the statement that sets v to a constant divided by the magnitude `y` of a divisor, whose
/// sign is known.
#[tactic(auto, using(crate::proofs::Appends::push_steps))]
fn constant_divided(
    alloc: Global,
    d: Division,
    c: Word,
    y: &W,
    divisor: bool,
    v: u32,
    block: &mut Stmts,
) -> Result<(), NoMemory>
    ensures { OnOk result (Appends block.old block.new
        (set v (divided_magnitudes (division_of d) (Const (magnitude_of c)) (operand_of y.now)
        (is_negative c) divisor))) }
{
    let x = boxed_word(alloc, W::Const(magnitude(c)))?;
    let w = divided_magnitudes(alloc, d, x, y, is_negative(c), divisor)?;
    block.push(Stmt::Set(v, Box::into_inner(w)))
}

/// Appends the statements that divide a word by the magnitude `y` of a divisor, whose sign is
/// known. The word's sign is looked at.
#[tactic(auto, using(crate::proofs::Appends::push_steps))]
fn word_divided(
    alloc: Global,
    d: Division,
    x: &W,
    y: &W,
    divisor: bool,
    v: u32,
    block: &mut Stmts,
) -> Result<(), NoMemory>
    ensures { OnOk result (Appends block.old block.new
        (by_dividend (division_of d) None (operand_of x.now) (operand_of y.now) divisor v)) }
{
    let natural = is_natural(alloc, x)?;
    let w = divided_magnitudes(alloc, d, copy(alloc, x)?, y, false, divisor)?;
    let positive = assignment(alloc, v, Box::into_inner(w))?;
    let w = divided_magnitudes(alloc, d, minus_of(alloc, x)?, y, true, divisor)?;
    let negative = assignment(alloc, v, Box::into_inner(w))?;
    block.push(Stmt::If(Box::into_inner(natural), positive, negative))
}

/// Appends the statements that divide by the magnitude `y` of a divisor, whose sign is known. The
/// dividend's sign is looked at unless it is a constant.
fn by_dividend(
    alloc: Global,
    d: Division,
    x: &Side,
    y: &W,
    divisor: bool,
    v: u32,
    block: &mut Stmts,
) -> Result<(), NoMemory>
    ensures { OnOk result (Appends block.old block.new
        (by_dividend (division_of d) x.now.constant (operand_of x.now.word.value)
        (operand_of y.now) divisor v)) }
{
    match x.constant {
        Some(c) => constant_divided(alloc, d, c, y, divisor, v, block),
        None => word_divided(alloc, d, &x.word, y, divisor, v, block),
    }
}

/// Appends the statement that returns 1 where the divisor is 0.
#[tactic(auto, using(crate::proofs::Appends::push_steps))]
fn zero_test(alloc: Global, y: &W, block: &mut Stmts) -> Result<(), NoMemory>
    ensures { OnOk result (Appends block.old block.new (zero_test (operand_of y.now) Nil)) }
{
    let y = copy(alloc, y)?;
    let zero = boxed_test(alloc, T::Same(Box::into_inner(y), W::Const(0)))?;
    let mut trap = Stmts::new(alloc);
    trap.push(Stmt::Ret(Verdict::Trap))?;
    block.push(Stmt::If(Box::into_inner(zero), trap, Stmts::new(alloc)))
}

/// Appends the statements that divide by a word: it is tested, and its sign is looked at.
#[tactic(auto, using(crate::proofs::Appends::push_steps))]
fn by_word(
    alloc: Global,
    d: Division,
    x: &Side,
    y: &W,
    v: u32,
    block: &mut Stmts,
) -> Result<(), NoMemory>
    ensures { OnOk result (Appends block.old block.new
        (by_divisor (division_of d) x.now.constant None (operand_of x.now.word.value)
        (operand_of y.now) v)) }
{
    zero_test(alloc, y, block)?;
    let natural = is_natural(alloc, y)?;
    let mut as_is = Stmts::new(alloc);
    by_dividend(alloc, d, x, y, false, v, &mut as_is)?;
    let opposite = minus_of(alloc, y)?;
    let mut negated = Stmts::new(alloc);
    by_dividend(alloc, d, x, &opposite, true, v, &mut negated)?;
    block.push(Stmt::If(Box::into_inner(natural), as_is, negated))
}

/// Appends the statements that set the variable v to the signed quotient or remainder of `x` by
/// `y`, and return 1 where `y` is 0. The one error is `NoMemory`.
#[tactic(auto, using(crate::proofs::Appends::push_steps))]
pub fn by_divisor(
    alloc: Global,
    d: Division,
    x: &Side,
    y: &Side,
    v: u32,
    block: &mut Stmts,
) -> Result<(), NoMemory>
    ensures { OnOk result (Appends block.old block.new
        (by_divisor (division_of d) x.now.constant y.now.constant
        (operand_of x.now.word.value) (operand_of y.now.word.value) v)) }
{
    match y.constant {
        Some(0) => block.push(Stmt::Ret(Verdict::Trap)),
        Some(c) => {
            let y = boxed_word(alloc, W::Const(magnitude(c)))?;
            by_dividend(alloc, d, x, &y, is_negative(c), v, block)
        }
        None => by_word(alloc, d, x, &y.word, v, block),
    }
}
