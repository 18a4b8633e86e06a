ghost use Rattle.std.specs.Prelude.{◌≡◌};
ghost use Rattle.c_words.specs.SameTokens.{is_same_token, keyword_place, letter_place, symbol_place};

use crate::token::{CToken, Keyword, Letter};
use c_tokens::Symbol;

/// The place of a keyword in their order.
fn keyword_place(keyword: Keyword) -> u8
    ensures { result ≡ keyword_place keyword }
{
    match keyword {
        Keyword::Int => 0,
        Keyword::Pipeline => 1,
        Keyword::Void => 2,
        Keyword::Const => 3,
        Keyword::Uint64 => 4,
        Keyword::If => 5,
        Keyword::Else => 6,
        Keyword::While => 7,
        Keyword::Break => 8,
        Keyword::Return => 9,
        Keyword::Emit => 10,
        Keyword::EndRow => 11,
    }
}

fn letter_place(letter: Letter) -> u8
    ensures { result ≡ letter_place letter }
{
    match letter {
        Letter::Variable => 0,
        Letter::Array => 1,
        Letter::Length => 2,
        Letter::Int => 3,
    }
}

fn symbol_place(symbol: Symbol) -> u8
    ensures { result ≡ symbol_place symbol }
{
    match symbol {
        Symbol::OpenParen => 0,
        Symbol::CloseParen => 1,
        Symbol::OpenBrace => 2,
        Symbol::CloseBrace => 3,
        Symbol::OpenBracket => 4,
        Symbol::CloseBracket => 5,
        Symbol::Semicolon => 6,
        Symbol::Comma => 7,
        Symbol::Equal => 8,
        Symbol::EqualEqual => 9,
        Symbol::Less => 10,
        Symbol::AndAnd => 11,
        Symbol::BarBar => 12,
        Symbol::Bang => 13,
        Symbol::Plus => 14,
        Symbol::Minus => 15,
        Symbol::Star => 16,
        Symbol::Slash => 17,
        Symbol::Percent => 18,
        Symbol::Caret => 19,
    }
}

/// Whether a reader sees the same in two tokens. Two words that are neither keywords nor names are
/// never the same.
pub fn is_same(a: CToken, b: CToken) -> bool
    ensures { result ≡ is_same_token a b }
{
    match (a, b) {
        (CToken::Key(a), CToken::Key(b)) => keyword_place(a) == keyword_place(b),
        (CToken::Name(l, j), CToken::Name(m, k)) => letter_place(l) == letter_place(m) && j == k,
        (CToken::Bare(m), CToken::Bare(n)) => m == n,
        (CToken::Constant(m), CToken::Constant(n)) => m == n,
        (CToken::Sym(a), CToken::Sym(b)) => symbol_place(a) == symbol_place(b),
        _ => false,
    }
}
