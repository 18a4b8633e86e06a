//! Operands and tests with other numbers for their variables.

ghost use Rattle.std.specs.Prelude.{◌≡◌, IfOk};
ghost use Rattle.loop_ir.specs.StatementCopies.{operand_of, test_of};
ghost use Rattle.dead_code.specs.Live.{number_in, renumbered, renumbered_test};

use expr_phrases::{boxed_test, boxed_word};
use loop_ir::{T, W};
use std::alloc::Global;
use strm_num::NoMemory;

/// The number of a variable: the one that it has in the list, or else its own.
pub fn number_in(numbers: &[u32], v: u32) -> u32
    ensures { result ≡ number_in numbers.now v }
{
    numbers.get(v as usize).copied().unwrap_or(v)
}

/// The operand, with these numbers for its variables. The one error is `NoMemory`.
pub fn renumbered(alloc: Global, w: &W, numbers: &[u32]) -> Result<Box<W>, NoMemory>
    ensures { IfOk result (λ made. operand_of made.value ≡ renumbered numbers.now (operand_of w.now)) }
{
    match w {
        W::Const(n) => boxed_word(alloc, W::Const(*n)),
        W::Var(v) => boxed_word(alloc, W::Var(number_in(numbers, *v))),
        W::Len(a) => boxed_word(alloc, W::Len(*a)),
        W::Int(k) => boxed_word(alloc, W::Int(*k)),
        W::Bin(op, a, b) => {
            let a = renumbered(alloc, a, numbers)?;
            let b = renumbered(alloc, b, numbers)?;
            boxed_word(alloc, W::Bin(*op, a, b))
        }
    }
}

/// The test, with these numbers for its variables. The one error is `NoMemory`.
pub fn renumbered_test(alloc: Global, t: &T, numbers: &[u32]) -> Result<Box<T>, NoMemory>
    ensures { IfOk result (λ made. test_of made.value ≡ renumbered_test numbers.now (test_of t.now)) }
{
    match t {
        T::Less(a, b) => {
            let a = renumbered(alloc, a, numbers)?;
            let b = renumbered(alloc, b, numbers)?;
            boxed_test(alloc, T::Less(Box::into_inner(a), Box::into_inner(b)))
        }
        T::Same(a, b) => {
            let a = renumbered(alloc, a, numbers)?;
            let b = renumbered(alloc, b, numbers)?;
            boxed_test(alloc, T::Same(Box::into_inner(a), Box::into_inner(b)))
        }
        T::Both(a, b) => {
            let a = renumbered_test(alloc, a, numbers)?;
            let b = renumbered_test(alloc, b, numbers)?;
            boxed_test(alloc, T::Both(a, b))
        }
        T::Either(a, b) => {
            let a = renumbered_test(alloc, a, numbers)?;
            let b = renumbered_test(alloc, b, numbers)?;
            boxed_test(alloc, T::Either(a, b))
        }
        T::Not(a) => {
            let a = renumbered_test(alloc, a, numbers)?;
            boxed_test(alloc, T::Not(a))
        }
    }
}
