//! What may stand where in phrases, and which tokens are operators.

ghost use Rattle.std.specs.Prelude.{◌≡◌};
ghost use Rattle.c_automaton.specs.Phrases.{may_be_operand, may_be_test, inside, side_of, may_join, operator_at};

use c_automaton::{Operator, Want};
use c_tokens::Symbol;
use c_words::CToken;
use loop_ir::WOp;

/// Whether what is wanted may be an operand.
pub fn may_be_operand(want: Want) -> bool
    ensures { result ≡ may_be_operand want }
{
    match want {
        Want::Operand | Want::Either => true,
        Want::Test => false,
    }
}

/// Whether what is wanted may be a test.
pub fn may_be_test(want: Want) -> bool
    ensures { result ≡ may_be_test want }
{
    match want {
        Want::Test | Want::Either => true,
        Want::Operand => false,
    }
}

/// What may stand first in parentheses that may become what is wanted.
pub fn inside(want: Want) -> Want
    ensures { result ≡ inside want }
{
    match want {
        Want::Operand => Want::Operand,
        Want::Test | Want::Either => Want::Either,
    }
}

/// What an operator stands between.
pub fn side_of(operator: Operator) -> Want
    ensures { result ≡ side_of operator }
{
    match operator {
        Operator::Arithmetic(_) | Operator::Less | Operator::Same => Want::Operand,
        Operator::Both | Operator::Either => Want::Test,
    }
}

/// Whether parentheses with this operator in them may become what is wanted.
pub fn may_join(want: Want, operator: Operator) -> bool
    ensures { result ≡ may_join want operator }
{
    match operator {
        Operator::Arithmetic(_) => may_be_operand(want),
        Operator::Less | Operator::Same | Operator::Both | Operator::Either => may_be_test(want),
    }
}

/// The operator that a token is.
pub fn operator_at(token: CToken) -> Option<Operator>
    ensures { result ≡ operator_at token }
{
    let CToken::Sym(symbol) = token else {
        return None;
    };
    match symbol {
        Symbol::Plus => Some(Operator::Arithmetic(WOp::Add)),
        Symbol::Minus => Some(Operator::Arithmetic(WOp::Sub)),
        Symbol::Star => Some(Operator::Arithmetic(WOp::Mul)),
        Symbol::Slash => Some(Operator::Arithmetic(WOp::Div)),
        Symbol::Percent => Some(Operator::Arithmetic(WOp::Rem)),
        Symbol::Caret => Some(Operator::Arithmetic(WOp::Xor)),
        Symbol::Less => Some(Operator::Less),
        Symbol::EqualEqual => Some(Operator::Same),
        Symbol::AndAnd => Some(Operator::Both),
        Symbol::BarBar => Some(Operator::Either),
        _ => None,
    }
}
