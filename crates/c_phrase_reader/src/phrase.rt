//! Operands and tests, and how they join.

ghost use Rattle.std.specs.Prelude.{◌≡◌, IfOk, Some, option_map};
ghost use Rattle.c_automaton.specs.Phrases.{AnOperand, ATest, allows, joined, negated, operand_at};
ghost use Rattle.c_phrase_reader.specs.PhraseCopies.{phrase_of};
ghost use Rattle.loop_ir.specs.StatementCopies.{operand_of, test_of};

use crate::tables::{may_be_operand, may_be_test};
use c_automaton::{Operator, Want};
use c_words::{CToken, Letter};
use loop_ir::{T, W, WOp};
use std::alloc::Global;
use strm_num::NoMemory;

/// What has been read: an operand or a test.
#[derive(Drop)]
pub enum Phrase {
    Operand(Box<W>),
    Test(Box<T>),
}

/// Whether a phrase is such as is wanted.
pub fn allows(want: Want, phrase: &Phrase) -> bool
    ensures { result ≡ allows want (phrase_of phrase.now) }
{
    match phrase {
        Phrase::Operand(_) => may_be_operand(want),
        Phrase::Test(_) => may_be_test(want),
    }
}

/// An operand in a box, as a phrase.
fn operand(alloc: Global, operand: W) -> Result<Option<Phrase>, NoMemory>
    ensures { IfOk result (λ made. option_map phrase_of made ≡ Some (AnOperand (operand_of operand))) }
{
    Ok(Some(Phrase::Operand(Box::new(alloc, operand)?)))
}

/// A test in a box, as a phrase.
fn test(alloc: Global, test: T) -> Result<Option<Phrase>, NoMemory>
    ensures { IfOk result (λ made. option_map phrase_of made ≡ Some (ATest (test_of test))) }
{
    Ok(Some(Phrase::Test(Box::new(alloc, test)?)))
}

/// The operand that a token is alone; none where it is none.
pub fn operand_at(alloc: Global, token: CToken) -> Result<Option<Phrase>, NoMemory>
    ensures { IfOk result (λ made. option_map phrase_of made ≡ option_map AnOperand (operand_at token)) }
{
    match token {
        CToken::Constant(n) => operand(alloc, W::Const(n)),
        CToken::Name(Letter::Variable, v) => operand(alloc, W::Var(v)),
        CToken::Name(Letter::Length, a) => operand(alloc, W::Len(a)),
        CToken::Name(Letter::Int, k) => operand(alloc, W::Int(k)),
        _ => Ok(None),
    }
}

/// The two sides of an operator as one phrase; none where they are no such sides.
pub fn joined(
    alloc: Global,
    operator: Operator,
    left: Phrase,
    right: Phrase,
) -> Result<Option<Phrase>, NoMemory>
    ensures { IfOk result (λ made. option_map phrase_of made
        ≡ joined operator (phrase_of left) (phrase_of right)) }
{
    match (operator, left, right) {
        (Operator::Arithmetic(op), Phrase::Operand(a), Phrase::Operand(b)) => {
            operand(alloc, W::Bin(op, a, b))
        }
        (Operator::Less, Phrase::Operand(a), Phrase::Operand(b)) => {
            test(alloc, T::Less(Box::into_inner(a), Box::into_inner(b)))
        }
        (Operator::Same, Phrase::Operand(a), Phrase::Operand(b)) => {
            test(alloc, T::Same(Box::into_inner(a), Box::into_inner(b)))
        }
        (Operator::Both, Phrase::Test(t), Phrase::Test(u)) => test(alloc, T::Both(t, u)),
        (Operator::Either, Phrase::Test(t), Phrase::Test(u)) => test(alloc, T::Either(t, u)),
        _ => Ok(None),
    }
}

/// A phrase with a `!` before it, in parentheses; none where it is no test.
pub fn negated(alloc: Global, phrase: Phrase) -> Result<Option<Phrase>, NoMemory>
    ensures { IfOk result (λ made. option_map phrase_of made ≡ negated (phrase_of phrase)) }
{
    match phrase {
        Phrase::Operand(_) => Ok(None),
        Phrase::Test(t) => test(alloc, T::Not(t)),
    }
}
