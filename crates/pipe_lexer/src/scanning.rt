ghost use Rattle.std.specs.Prelude.{◌≡◌, ◌<◌, ◌≤◌, ◌+◌, ◌-◌, ◌*◌, ℕ, length, slice_index, true, false};
ghost use Rattle.std.specs.List.{prefix_len};
ghost use Rattle.pipe_lexer.specs.Characters.{is_blank, begins_comment, continues_comment, is_digit, begins_identifier, continues_identifier};
ghost use Rattle.pipe_lexer.specs.Pieces.{value_with};
ghost use Rattle.pipe_lexer.specs.Prefixes.{StandsAtPrefix, HasPrefix, HasSymbol, IsIdentifierKind, symbol_pair, within_limit};

use crate::keyword::keyword_of;
use crate::piece::{Piece, Prefix, Stop};
use crate::symbol::{Symbol, symbol_of_one, symbol_of_two};
use crate::token::TokenKind;
use strm_num::Word;

/// The largest number of a text, 2^63 - 1.
const LARGEST: u64 = 0x7fff_ffff_ffff_ffff;

fn is_blank(c: char) -> bool
    ensures { result ≡ is_blank c }
{
    matches!(c, ' ' | '\t' | '\r' | '\n')
}

fn is_digit(c: char) -> bool
    ensures { result ≡ is_digit c }
{
    matches!(c, '0'..='9')
}

fn begins_identifier(c: char) -> bool
    ensures { result ≡ begins_identifier c }
{
    unicode_ident::is_xid_start(c) || c == '_'
}

/// How many characters at the start go on with a comment.
fn comment_len(behind: &[char]) -> usize
    ensures run { result ≡ prefix_len continues_comment behind.now }
    ensures within { result ≤ length behind.now }
{
    behind.iter().take_while(|c| **c != '\n').count()
}

/// How many characters at the start go on with an identifier.
fn identifier_len(behind: &[char]) -> usize
    ensures run { result ≡ prefix_len continues_identifier behind.now }
    ensures within { result ≤ length behind.now }
{
    behind
        .iter()
        .take_while(|c| unicode_ident::is_xid_continue(**c))
        .count()
}

/// How many characters at the start are digits.
fn digits_len(behind: &[char]) -> usize
    ensures run { result ≡ prefix_len is_digit behind.now }
    ensures within { result ≤ length behind.now }
{
    behind.iter().take_while(|c| is_digit(**c)).count()
}

/// A number with one digit more, or none where it is too large.
fn with_digit(number: Option<Word>, digit: char) -> Option<Word>
    ensures { (n : ℕ) → number ≡ within_limit n → result ≡ within_limit (n * 10 + (digit - 48)) }
{
    let digit = (digit as u32).saturating_sub(48);
    let wide = number? as u128 * 10 + digit as u128;
    if wide <= LARGEST as u128 {
        Some(wide as u64)
    } else {
        None
    }
}

/// The value of decimal digits, or none where it is too large.
fn value(digits: &[char]) -> Option<Word>
    ensures { result ≡ within_limit (value_with 0 digits.now) }
{
    let mut value = Some(0);
    for c in digits {
        value = with_digit(value, *c);
    }
    value
}

/// The comment at the start.
fn comment(chars: &[char]) -> Prefix
    requires some { 0 < length chars.now }
    requires begins { begins_comment (slice_index chars.now 0) ≡ true }
    ensures { StandsAtPrefix chars.now result.piece result.len }
{
    Prefix {
        piece: Piece::Comment,
        len: 1 + comment_len(&chars[1..]),
    }
}

/// The number at the start, or that it is too large.
fn number(chars: &[char]) -> Result<Prefix, Stop>
    requires some { 0 < length chars.now }
    requires begins { is_digit (slice_index chars.now 0) ≡ true }
    ensures { HasPrefix chars.now result }
{
    let len = 1 + digits_len(&chars[1..]);
    match value(&chars[..len]) {
        None => Err(Stop::NumberTooLarge),
        Some(number) => Ok(Prefix {
            piece: Piece::Token(TokenKind::Number(number)),
            len,
        }),
    }
}

/// What an identifier is: the keyword that is written so, else a name.
fn identifier_kind(identifier: &[char]) -> TokenKind
    ensures { IsIdentifierKind identifier.now result }
{
    match keyword_of(identifier) {
        None => TokenKind::Name,
        Some(keyword) => TokenKind::Key(keyword),
    }
}

/// The keyword or name at the start.
fn identifier(chars: &[char]) -> Prefix
    requires some { 0 < length chars.now }
    requires begins { begins_identifier (slice_index chars.now 0) ≡ true }
    ensures { StandsAtPrefix chars.now result.piece result.len }
{
    let len = 1 + identifier_len(&chars[1..]);
    let kind = identifier_kind(&chars[..len]);
    Prefix {
        piece: Piece::Token(kind),
        len,
    }
}

/// The symbol of the two characters at the start.
fn symbol_pair(chars: &[char]) -> Option<Symbol>
    ensures { result ≡ symbol_pair chars.now }
{
    if chars.len() < 2 {
        return None;
    }
    symbol_of_two(chars[0], chars[1])
}

/// The longest symbol at the start, or none where none stands there.
fn symbol(chars: &[char]) -> Option<Prefix>
    requires { 0 < length chars.now }
    ensures { HasSymbol chars.now result }
{
    if let Some(symbol) = symbol_pair(chars) {
        return Some(Prefix {
            piece: Piece::Token(TokenKind::Sym(symbol)),
            len: 2,
        });
    }
    let symbol = symbol_of_one(chars[0])?;
    Some(Prefix {
        piece: Piece::Token(TokenKind::Sym(symbol)),
        len: 1,
    })
}

/// The piece at the start, or why none stands there.
pub fn prefix(chars: &[char]) -> Result<Prefix, Stop>
    requires { 0 < length chars.now }
    ensures { HasPrefix chars.now result }
{
    let first = chars[0];
    if is_blank(first) {
        Ok(Prefix {
            piece: Piece::Blank,
            len: 1,
        })
    } else if first == '#' {
        Ok(comment(chars))
    } else if is_digit(first) {
        number(chars)
    } else if begins_identifier(first) {
        Ok(identifier(chars))
    } else {
        match symbol(chars) {
            None => Err(Stop::BadChar),
            Some(prefix) => Ok(prefix),
        }
    }
}
