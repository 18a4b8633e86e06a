/// A keyword or symbol that stands between two parts of a form, or closes it.
#[derive(Clone, Copy, PartialEq, Eq)]
pub enum Separator {
    With,
    While,
    Yield,
    Next,
    Arrow,
    OpenParen,
    CloseParen,
    CloseBrace,
    Comma,
    Colon,
    Semicolon,
}
