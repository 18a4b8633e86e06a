ghost use Rattle.std.specs.Prelude.{◌≡◌, ◌≢◌, ◌<◌, ◌≤◌, ◌+◌, length, slice_index, true, false, IfSome};
ghost use Rattle.std.specs.List.{prefix_len};
ghost use Rattle.c_tokens.specs.Characters.{is_blank, is_digit, begins_word, continues_word};
ghost use Rattle.c_tokens.specs.Pieces.{begins_with_pair};
ghost use Rattle.c_lexer.specs.Comments.{IsUnclosed};
ghost use Rattle.c_lexer.specs.Prefixes.{StandsAtPrefix, HasPrefix, HasSymbol};

use crate::characters::{begins_with_pair, begins_word, continues_word, is_blank, is_digit};
use crate::comments::comment_end;
use crate::numbers::number_token;
use crate::piece::{Piece, Prefix};
use crate::symbols::{symbol_of_one, symbol_pair};
use crate::words::word_token;
use c_tokens::Symbol;
use c_words::CToken;

/// How many characters at the start go on with a word or a number.
fn run_len(behind: &[u8]) -> usize
    ensures run { result ≡ prefix_len continues_word behind.now }
    ensures within { result ≤ length behind.now }
{
    behind.iter().take_while(|c| continues_word(**c)).count()
}

/// The word at the start.
fn word(chars: &[u8], is_open: bool) -> Prefix
    requires some { 0 < length chars.now }
    requires begins { begins_word (slice_index chars.now 0) ≡ true }
    ensures stands { StandsAtPrefix chars.now result.piece result.len }
    ensures open { result.is_open ≡ is_open }
{
    let len = 1 + run_len(&chars[1..]);
    let token = word_token(&chars[..len]);
    Prefix {
        piece: Piece::Token(token),
        len,
        is_open,
    }
}

/// The number at the start.
fn number(chars: &[u8], is_open: bool) -> Option<Prefix>
    requires some { 0 < length chars.now }
    requires begins { is_digit (slice_index chars.now 0) ≡ true }
    ensures stands { HasPrefix chars.now result }
    ensures open { IfSome result (λ p. p.is_open ≡ is_open) }
{
    let len = 1 + run_len(&chars[1..]);
    let token = number_token(&chars[..len])?;
    Some(Prefix {
        piece: Piece::Token(token),
        len,
        is_open,
    })
}

/// The symbol at the start, which isn't `/`.
fn symbol(chars: &[u8], is_open: bool) -> Option<Prefix>
    requires some { 0 < length chars.now }
    requires no_slash { slice_index chars.now 0 ≢ 47 }
    ensures stands { HasSymbol chars.now result }
    ensures open { IfSome result (λ p. p.is_open ≡ is_open) }
{
    if let Some(symbol) = symbol_pair(chars) {
        return Some(Prefix {
            piece: Piece::Token(CToken::Sym(symbol)),
            len: 2,
            is_open,
        });
    }
    let symbol = symbol_of_one(chars[0])?;
    Some(Prefix {
        piece: Piece::Token(CToken::Sym(symbol)),
        len: 1,
        is_open,
    })
}

/// The comment at the start, or `/` where it has no end.
///
/// A comment without an end is looked for once: then none that begins later has one, before the text
/// ends or a character stands there that begins no piece.
fn comment(chars: &[u8], is_open: bool) -> Prefix
    requires begins { begins_with_pair 47 42 chars.now ≡ true }
    requires unclosed { is_open ≡ true → IsUnclosed chars.now }
    ensures stands { StandsAtPrefix chars.now result.piece result.len }
    ensures open { result.is_open ≡ true → IsUnclosed chars.now }
{
    if !is_open {
        if let Some(len) = comment_end(&chars[2..]) {
            return Prefix {
                piece: Piece::Comment,
                len: 2 + len,
                is_open,
            };
        }
    }
    Prefix {
        piece: Piece::Token(CToken::Sym(Symbol::Slash)),
        len: 1,
        is_open: true,
    }
}

/// The comment or the `/` at the start; none where a comment of C begins that ends with its line.
fn slash(chars: &[u8], is_open: bool) -> Option<Prefix>
    requires some { 0 < length chars.now }
    requires begins { slice_index chars.now 0 ≡ 47 }
    requires unclosed { is_open ≡ true → IsUnclosed chars.now }
    ensures stands { HasPrefix chars.now result }
    ensures open { IfSome result (λ p. p.is_open ≡ true → IsUnclosed chars.now) }
{
    if begins_with_pair(chars, b'/', b'/') {
        None
    } else if begins_with_pair(chars, b'/', b'*') {
        Some(comment(chars, is_open))
    } else {
        Some(Prefix {
            piece: Piece::Token(CToken::Sym(Symbol::Slash)),
            len: 1,
            is_open,
        })
    }
}

/// The piece at the start, or none where none stands there.
pub fn prefix(chars: &[u8], is_open: bool) -> Option<Prefix>
    requires some { 0 < length chars.now }
    requires unclosed { is_open ≡ true → IsUnclosed chars.now }
    ensures stands { HasPrefix chars.now result }
    ensures open { IfSome result (λ p. p.is_open ≡ true → IsUnclosed chars.now) }
{
    let first = chars[0];
    if is_blank(first) {
        Some(Prefix {
            piece: Piece::Blank,
            len: 1,
            is_open,
        })
    } else if begins_word(first) {
        Some(word(chars, is_open))
    } else if is_digit(first) {
        number(chars, is_open)
    } else if first == b'/' {
        slash(chars, is_open)
    } else {
        symbol(chars, is_open)
    }
}
