ghost use Rattle.std.specs.Prelude.{◌≡◌};
ghost use Rattle.c_lexer.specs.Symbols.{symbol_of_one, symbol_twice, symbol_pair};

use c_tokens::Symbol;

/// The symbol of one character.
pub fn symbol_of_one(c: u8) -> Option<Symbol>
    ensures { result ≡ symbol_of_one c }
{
    match c {
        b'(' => Some(Symbol::OpenParen),
        b')' => Some(Symbol::CloseParen),
        b'{' => Some(Symbol::OpenBrace),
        b'}' => Some(Symbol::CloseBrace),
        b'[' => Some(Symbol::OpenBracket),
        b']' => Some(Symbol::CloseBracket),
        b';' => Some(Symbol::Semicolon),
        b',' => Some(Symbol::Comma),
        b'=' => Some(Symbol::Equal),
        b'<' => Some(Symbol::Less),
        b'!' => Some(Symbol::Bang),
        b'+' => Some(Symbol::Plus),
        b'-' => Some(Symbol::Minus),
        b'*' => Some(Symbol::Star),
        b'/' => Some(Symbol::Slash),
        b'%' => Some(Symbol::Percent),
        b'^' => Some(Symbol::Caret),
        _ => None,
    }
}

/// The symbol of a character that is there twice.
fn symbol_twice(c: u8) -> Option<Symbol>
    ensures { result ≡ symbol_twice c }
{
    match c {
        b'=' => Some(Symbol::EqualEqual),
        b'&' => Some(Symbol::AndAnd),
        b'|' => Some(Symbol::BarBar),
        _ => None,
    }
}

/// The symbol of the two characters at the start.
pub fn symbol_pair(chars: &[u8]) -> Option<Symbol>
    ensures { result ≡ symbol_pair chars.now }
{
    match chars {
        [c, d, ..] if *c == *d => symbol_twice(*c),
        _ => None,
    }
}
