use c_words::CToken;

/// What a text is cut into: one blank, one comment, or one token.
#[derive(Clone, Copy)]
pub enum Piece {
    Blank,
    Comment,
    Token(CToken),
}

/// The piece at the start of a text.
#[derive(Clone, Copy)]
pub struct Prefix {
    pub piece: Piece,
    /// How many characters it has.
    pub len: usize,
    /// Whether it is known that no comment which begins here or later in the text has an end.
    pub is_open: bool,
}
