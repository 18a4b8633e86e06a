use crate::keyword::Keyword;
use crate::symbol::Symbol;
use strm_num::Word;

/// What a token is: a name, a number by its value, at most 2^63 - 1, a keyword or a symbol.
#[derive(Clone, Copy, Debug)]
pub enum TokenKind {
    Name,
    Number(Word),
    Key(Keyword),
    Sym(Symbol),
}

/// A token and its offset: its text is the bytes of the source from `at` to before `end`, both
/// counted in bytes from 0.
#[derive(Clone, Copy)]
pub struct Token {
    pub kind: TokenKind,
    pub at: u32,
    pub end: u32,
}
