ghost use Rattle.std.specs.Prelude.{◌≡◌};
ghost use Rattle.c_tokens.specs.Characters.{is_blank, is_digit, begins_word, continues_word, is_in_comment};
ghost use Rattle.c_tokens.specs.Pieces.{begins_with_pair};

/// A space, a tab, a carriage return or a line feed.
pub fn is_blank(c: u8) -> bool
    ensures { result ≡ is_blank c }
{
    matches!(c, b' ' | b'\t' | b'\r' | b'\n')
}

/// A digit.
pub fn is_digit(c: u8) -> bool
    ensures { result ≡ is_digit c }
{
    matches!(c, b'0'..=b'9')
}

/// A letter or `_`.
pub fn begins_word(c: u8) -> bool
    ensures { result ≡ begins_word c }
{
    matches!(c, b'A'..=b'Z' | b'a'..=b'z' | b'_')
}

/// A letter, a digit or `_`.
pub fn continues_word(c: u8) -> bool
    ensures { result ≡ continues_word c }
{
    begins_word(c) || is_digit(c)
}

/// A blank, or a printable character other than `\` and `?`.
pub fn is_in_comment(c: u8) -> bool
    ensures { result ≡ is_in_comment c }
{
    is_blank(c) || (matches!(c, b' '..=b'~') && c != b'\\' && c != b'?')
}

/// Whether these two characters stand at the start.
pub fn begins_with_pair(chars: &[u8], a: u8, b: u8) -> bool
    ensures { result ≡ begins_with_pair a b chars.now }
{
    matches!(chars, [c, d, ..] if *c == a && *d == b)
}
