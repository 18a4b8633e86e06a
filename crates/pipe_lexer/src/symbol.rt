ghost use Rattle.std.specs.Prelude.{◌≡◌};
ghost use Rattle.pipe_lexer.specs.Symbols.{symbol_of_one, symbol_of_two};

/// The symbols, each named by its characters.
#[derive(Clone, Copy, Debug)]
pub enum Symbol {
    /// `|`
    Bar,
    /// `||`
    BarBar,
    /// `&&`
    AndAnd,
    /// `->`
    Arrow,
    /// `==`
    EqualEqual,
    /// `!=`
    BangEqual,
    /// `<`
    Less,
    /// `<=`
    LessEqual,
    /// `>`
    Greater,
    /// `>=`
    GreaterEqual,
    /// `+`
    Plus,
    /// `-`
    Minus,
    /// `*`
    Times,
    /// `/`
    Slash,
    /// `%`
    Percent,
    /// `!`
    Bang,
    /// `(`
    OpenParen,
    /// `)`
    CloseParen,
    /// `{`
    OpenBrace,
    /// `}`
    CloseBrace,
    /// `[`
    OpenBracket,
    /// `]`
    CloseBracket,
    /// `,`
    Comma,
    /// `:`
    Colon,
    /// `;`
    Semicolon,
}

/// The symbol of one character.
pub fn symbol_of_one(c: char) -> Option<Symbol>
    ensures { result ≡ symbol_of_one c }
{
    match c {
        '|' => Some(Symbol::Bar),
        '<' => Some(Symbol::Less),
        '>' => Some(Symbol::Greater),
        '+' => Some(Symbol::Plus),
        '-' => Some(Symbol::Minus),
        '*' => Some(Symbol::Times),
        '/' => Some(Symbol::Slash),
        '%' => Some(Symbol::Percent),
        '!' => Some(Symbol::Bang),
        '(' => Some(Symbol::OpenParen),
        ')' => Some(Symbol::CloseParen),
        '{' => Some(Symbol::OpenBrace),
        '}' => Some(Symbol::CloseBrace),
        '[' => Some(Symbol::OpenBracket),
        ']' => Some(Symbol::CloseBracket),
        ',' => Some(Symbol::Comma),
        ':' => Some(Symbol::Colon),
        ';' => Some(Symbol::Semicolon),
        _ => None,
    }
}

/// The symbol of two characters.
pub fn symbol_of_two(c: char, d: char) -> Option<Symbol>
    ensures { result ≡ symbol_of_two c d }
{
    match (c, d) {
        ('|', '|') => Some(Symbol::BarBar),
        ('&', '&') => Some(Symbol::AndAnd),
        ('-', '>') => Some(Symbol::Arrow),
        ('=', '=') => Some(Symbol::EqualEqual),
        ('!', '=') => Some(Symbol::BangEqual),
        ('<', '=') => Some(Symbol::LessEqual),
        ('>', '=') => Some(Symbol::GreaterEqual),
        _ => None,
    }
}
