use crate::token::TokenKind;

/// What a text is cut into: one blank, one comment without its line feed, or one token.
#[derive(Clone, Copy)]
pub enum Piece {
    Blank,
    Comment,
    Token(TokenKind),
}

/// The piece at the start of a text and how many characters it has.
#[derive(Clone, Copy)]
pub struct Prefix {
    pub piece: Piece,
    pub len: usize,
}

/// Why no piece stands at the start of a text: its first character begins none, or a number is
/// there that is too large.
#[derive(Clone, Copy)]
pub enum Stop {
    BadChar,
    NumberTooLarge,
}
