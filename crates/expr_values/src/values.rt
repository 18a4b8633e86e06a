ghost use Rattle.std.specs.Prelude.{◌≡◌, length, slice_get, slice_index};
ghost use Rattle.list_denotation.specs.Copies.{term_of};
ghost use Rattle.list_denotation.specs.Inputs.{items_in, word_in};
ghost use Rattle.list_denotation.specs.Values.{operation_of, value};
ghost use Rattle.expr_values.specs.Results.{got_of};

use list_denotation::{BinOp, Expr, Input, Inputs, Words};
use strm_num::{Word, div_signed, less_signed, rem_signed};

/// The value of an expression over the bound words and the inputs, its parts from left to right.
/// None where a division by 0 traps.
pub fn value(e: &Expr, env: &Words, inputs: &Inputs) -> Option<Word>
    ensures { value (term_of e.now) env.now inputs.now ≡ got_of result }
{
    match e {
        Expr::Lit(w) => Some(*w),
        Expr::Truth(b) => Some(u64::from(*b)),
        Expr::Var(k) => Some(bound_word(env, *k)),
        Expr::Param(k) => Some(int_input(inputs, *k)),
        Expr::Len(k) => Some(array_len(inputs, *k)),
        Expr::Neg(a) => {
            let x = value(a, env, inputs)?;
            Some(x.wrapping_neg())
        }
        Expr::Not(a) => {
            let x = value(a, env, inputs)?;
            Some(u64::from(x == 0))
        }
        Expr::Bin(op, a, b) => {
            let x = value(a, env, inputs)?;
            let y = value(b, env, inputs)?;
            operation(*op, x, y)
        }
        Expr::And(a, b) => {
            let x = value(a, env, inputs)?;
            if x == 0 {
                return Some(0);
            }
            let y = value(b, env, inputs)?;
            Some(u64::from(y != 0))
        }
        Expr::Or(a, b) => {
            let x = value(a, env, inputs)?;
            if x != 0 {
                return Some(1);
            }
            let y = value(b, env, inputs)?;
            Some(u64::from(y != 0))
        }
        Expr::If(c, a, b) => {
            let x = value(c, env, inputs)?;
            if x == 0 {
                value(b, env, inputs)
            } else {
                value(a, env, inputs)
            }
        }
    }
}

/// What an operator gives of two words, and none for a divisor of 0.
pub fn operation(op: BinOp, x: Word, y: Word) -> Option<Word>
    ensures { operation_of op x y ≡ got_of result }
{
    match op {
        BinOp::Add => Some(x.wrapping_add(y)),
        BinOp::Sub => Some(x.wrapping_sub(y)),
        BinOp::Mul => Some(x.wrapping_mul(y)),
        BinOp::Div => div_signed(x, y),
        BinOp::Rem => rem_signed(x, y),
        BinOp::Eq => Some(u64::from(x == y)),
        BinOp::Ne => Some(u64::from(x != y)),
        BinOp::Lt => Some(u64::from(less_signed(x, y))),
        BinOp::Le => Some(u64::from(!less_signed(y, x))),
        BinOp::Gt => Some(u64::from(less_signed(y, x))),
        BinOp::Ge => Some(u64::from(!less_signed(x, y))),
    }
}

/// Bound word `k`, counted from the outermost, and 0 past the last.
fn bound_word(env: &Words, k: u32) -> Word
    ensures { result ≡ slice_index env.now k }
{
    let k = u64::from(k);
    if k < env.len() { *env.get(k) } else { 0 }
}

/// The word of input `k`, and 0 where that is no int.
fn int_input(inputs: &Inputs, k: u32) -> Word
    ensures { result ≡ word_in (slice_get inputs.now k) }
{
    let k = u64::from(k);
    if k >= inputs.len() {
        return 0;
    }
    match inputs.get(k) {
        Input::Array(_) => 0,
        Input::Int(w) => *w,
    }
}

/// The number of items of input `k`, and 0 where that is no array.
fn array_len(inputs: &Inputs, k: u32) -> u64
    ensures { result ≡ length (items_in (slice_get inputs.now k)) }
{
    let k = u64::from(k);
    if k >= inputs.len() {
        return 0;
    }
    match inputs.get(k) {
        Input::Array(items) => items.len(),
        Input::Int(_) => 0,
    }
}
