/// A symbol of the C subset.
#[derive(Clone, Copy)]
pub enum Symbol {
    OpenParen,
    CloseParen,
    OpenBrace,
    CloseBrace,
    OpenBracket,
    CloseBracket,
    Semicolon,
    Comma,
    Equal,
    EqualEqual,
    Less,
    AndAnd,
    BarBar,
    Bang,
    Plus,
    Minus,
    Star,
    Slash,
    Percent,
    Caret,
}
