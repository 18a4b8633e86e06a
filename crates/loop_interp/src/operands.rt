//! The values of operands and tests over the variables. None is where C leaves them undefined.

ghost use Rattle.std.specs.Prelude.{◌≡◌, slice_get};
ghost use Rattle.list_denotation.specs.Inputs.{items_in, word_in};
ghost use Rattle.list_denotation.specs.Values.{with_value};
ghost use Rattle.loop_ir.specs.Meaning.{item_of, word_operation, operand_value, test_value};
ghost use Rattle.loop_ir.specs.StatementCopies.{operand_of, test_of};
ghost use Rattle.loop_ir.specs.Statements.{Bin};
ghost use Rattle.loop_interp.specs.Values.{got_from};

use loop_ir::{Input, Inputs, T, W, WOp};
use strm_num::Word;

/// The items of the array at a position, and none elsewhere.
#[inline]
fn items(inputs: &Inputs, a: u32) -> &[Word]
    ensures { result.now ≡ items_in (slice_get inputs.now a) }
{
    match inputs.as_slice().get(a as usize) {
        Some(Input::Array(items)) => items.as_slice(),
        _ => &[],
    }
}

/// Item i of the array at a position.
#[inline]
fn item(inputs: &Inputs, a: u32, i: Word) -> Option<Word>
    ensures { result ≡ slice_get (items_in (slice_get inputs.now a)) i }
{
    items(inputs, a).get(i as usize).copied()
}

/// The word of the int at a position, and 0 elsewhere.
#[inline]
fn int(inputs: &Inputs, k: u32) -> Word
    ensures { result ≡ word_in (slice_get inputs.now k) }
{
    match inputs.as_slice().get(k as usize) {
        Some(Input::Int(w)) => *w,
        _ => 0,
    }
}

/// An operation on words.
#[inline]
fn operation(op: WOp, x: Word, y: Word) -> Option<Word>
    ensures { got_from result ≡ word_operation op x y }
{
    match op {
        WOp::Add => Some(x.wrapping_add(y)),
        WOp::Sub => Some(x.wrapping_sub(y)),
        WOp::Mul => Some(x.wrapping_mul(y)),
        WOp::Div => x.checked_div(y),
        WOp::Rem => x.checked_rem(y),
        WOp::Xor => Some(x ^ y),
    }
}

/// The value of an operand. What has parts is left to `both`, so that all else costs no call.
#[cycle(operands)]
#[inline]
pub(crate) fn operand(w: &W, inputs: &Inputs, vars: &[Word]) -> Option<Word>
    ensures { got_from result ≡ operand_value inputs.now (operand_of w.now) vars.now }
{
    match w {
        W::Const(c) => Some(*c),
        W::Var(v) => Some(vars.get(*v as usize).copied().unwrap_or(0)),
        W::Len(a) => Some(items(inputs, *a).len() as u64),
        W::Int(k) => Some(int(inputs, *k)),
        W::Bin(op, a, b) => both(*op, a, b, inputs, vars),
    }
}

/// The value of an operation on two operands.
#[cycle(operands)]
#[inline(never)]
fn both(op: WOp, a: &W, b: &W, inputs: &Inputs, vars: &[Word]) -> Option<Word>
    ensures { got_from result ≡ operand_value inputs.now
        (Bin op (operand_of a.now) (operand_of b.now)) vars.now }
{
    let x = operand(a, inputs, vars)?;
    let y = operand(b, inputs, vars)?;
    operation(op, x, y)
}

/// Whether a test holds.
pub(crate) fn test(t: &T, inputs: &Inputs, vars: &[Word]) -> Option<bool>
    ensures { got_from result ≡ test_value inputs.now (test_of t.now) vars.now }
{
    match t {
        T::Less(a, b) => {
            let x = operand(a, inputs, vars)?;
            let y = operand(b, inputs, vars)?;
            Some(x < y)
        }
        T::Same(a, b) => {
            let x = operand(a, inputs, vars)?;
            let y = operand(b, inputs, vars)?;
            Some(x == y)
        }
        T::Both(a, b) => {
            if test(a, inputs, vars)? {
                test(b, inputs, vars)
            } else {
                Some(false)
            }
        }
        T::Either(a, b) => {
            if test(a, inputs, vars)? {
                Some(true)
            } else {
                test(b, inputs, vars)
            }
        }
        T::Not(a) => Some(!test(a, inputs, vars)?),
    }
}

/// Item w of the array at a position.
pub(crate) fn read(a: u32, w: &W, inputs: &Inputs, vars: &[Word]) -> Option<Word>
    ensures { got_from result ≡ with_value (operand_value inputs.now (operand_of w.now) vars.now)
        (λ i. item_of (slice_get (items_in (slice_get inputs.now a)) i)) }
{
    let i = operand(w, inputs, vars)?;
    item(inputs, a, i)
}
