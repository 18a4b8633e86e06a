use c_tokens::Symbol;

/// The words that the C subset gives a meaning, each named as it is written.
#[derive(Clone, Copy)]
pub enum Keyword {
    /// `int`
    Int,
    /// `pipeline`
    Pipeline,
    /// `void`
    Void,
    /// `const`
    Const,
    /// `uint64_t`
    Uint64,
    /// `if`
    If,
    /// `else`
    Else,
    /// `while`
    While,
    /// `break`
    Break,
    /// `return`
    Return,
    /// `EMIT`
    Emit,
    /// `ENDROW`
    EndRow,
}

/// The letters that names begin with, each by what it names.
#[derive(Clone, Copy)]
pub enum Letter {
    /// `v`
    Variable,
    /// `a`
    Array,
    /// `n`
    Length,
    /// `i`
    Int,
}

/// What a reader sees in a token: a keyword, a name with its number, another word, `0` or `1` alone,
/// a constant, or a symbol.
#[derive(Clone, Copy)]
pub enum CToken {
    Key(Keyword),
    Name(Letter, u32),
    OtherWord,
    Bare(u64),
    Constant(u64),
    Sym(Symbol),
}
