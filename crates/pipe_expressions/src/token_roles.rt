//! Tokens as the reader of expressions sees them.

ghost use Rattle.std.specs.Prelude.{◌≡◌, ℕ, List};
ghost use Rattle.pipe_reader.specs.Machine.{follow_of, start_of};
ghost use Rattle.pipe_expressions.specs.MachineCopies.{start_copy};
ghost use Rattle.pipe_tree.specs.Tokens.{what_of, Sym};

use pipe_lexer::{BinOp, Keyword, Symbol, TokenKind};
use pipe_reader::{Follow, InfixOp, Mark};
use strm_num::Word;

/// What a token begins where an operand is awaited.
#[derive(Clone, Copy)]
pub enum Start {
    Name,
    Number(Word),
    Truth(bool),
    Length,
    Negates,
    Denies,
    Encloses,
    Tests,
    Nothing,
}

/// What a token of this kind begins.
pub fn start_of(kind: TokenKind) -> Start
    ensures { (text : List ℕ) (at : ℕ) → start_of (what_of kind text) at
        ≡ start_copy result text at }
{
    match kind {
        TokenKind::Name => Start::Name,
        TokenKind::Number(n) => Start::Number(n),
        TokenKind::Key(Keyword::True) => Start::Truth(true),
        TokenKind::Key(Keyword::False) => Start::Truth(false),
        TokenKind::Key(Keyword::Len) => Start::Length,
        TokenKind::Key(Keyword::If) => Start::Tests,
        TokenKind::Sym(Symbol::Minus) => Start::Negates,
        TokenKind::Sym(Symbol::Bang) => Start::Denies,
        TokenKind::Sym(Symbol::OpenParen) => Start::Encloses,
        TokenKind::Key(_) | TokenKind::Sym(_) => Start::Nothing,
    }
}

/// What a symbol is to the operand before it.
fn follow_of_symbol(symbol: Symbol) -> Follow
    ensures { follow_of (Sym symbol) ≡ result }
{
    match symbol {
        Symbol::OpenParen => Follow::Marks(Mark::Opening),
        Symbol::CloseParen => Follow::Marks(Mark::Closing),
        Symbol::BarBar => Follow::Operator(InfixOp::Or),
        Symbol::AndAnd => Follow::Operator(InfixOp::And),
        Symbol::EqualEqual => Follow::Operator(InfixOp::Binary(BinOp::Eq)),
        Symbol::BangEqual => Follow::Operator(InfixOp::Binary(BinOp::Ne)),
        Symbol::Less => Follow::Operator(InfixOp::Binary(BinOp::Lt)),
        Symbol::LessEqual => Follow::Operator(InfixOp::Binary(BinOp::Le)),
        Symbol::Greater => Follow::Operator(InfixOp::Binary(BinOp::Gt)),
        Symbol::GreaterEqual => Follow::Operator(InfixOp::Binary(BinOp::Ge)),
        Symbol::Plus => Follow::Operator(InfixOp::Binary(BinOp::Add)),
        Symbol::Minus => Follow::Operator(InfixOp::Binary(BinOp::Sub)),
        Symbol::Times => Follow::Operator(InfixOp::Binary(BinOp::Mul)),
        Symbol::Slash => Follow::Operator(InfixOp::Binary(BinOp::Div)),
        Symbol::Percent => Follow::Operator(InfixOp::Binary(BinOp::Rem)),
        _ => Follow::Foreign,
    }
}

/// What a token of this kind is to the operand before it.
pub fn follow_of(kind: TokenKind) -> Follow
    ensures { (text : List ℕ) → follow_of (what_of kind text) ≡ result }
{
    match kind {
        TokenKind::Sym(symbol) => follow_of_symbol(symbol),
        TokenKind::Key(Keyword::Then) => Follow::Marks(Mark::ThenKeyword),
        TokenKind::Key(Keyword::Else) => Follow::Marks(Mark::ElseKeyword),
        TokenKind::Key(_) | TokenKind::Name | TokenKind::Number(_) => Follow::Foreign,
    }
}
