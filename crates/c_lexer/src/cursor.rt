ghost use Rattle.std.specs.Prelude.{◌≡◌, ◌≤◌, ◌<◌, ℕ, List, length, drop, true, IfSome};
ghost use Rattle.c_tokens.specs.Cutting.{Token, AreTokensOf};
ghost use Rattle.c_lexer.specs.Comments.{IsUnclosed};

use crate::piece::Piece;
use crate::scanning::prefix;
use c_words::CToken;

/// What a reader sees in a token, and the offset of the token's first byte.
#[derive(Clone, Copy)]
pub struct Found {
    pub token: CToken,
    pub at: usize,
}

/// A place in a text, from which on its tokens are taken off.
///
/// `is_open` says that no comment which begins from there on has an end, so that none is looked for.
#[derive(Drop)]
pub struct Cursor<'a> {
    text: &'a [u8],
    from: usize,
    is_open: bool,
    ghost within: { from ≤ length text.now },
    ghost unclosed: { is_open ≡ true → IsUnclosed (drop from text.now) },
}

impl<'a> Cursor<'a> {
    ghost use Rattle.c_lexer.specs.TokensFrom.{IsLeft, Takes};

    /// The start of a text.
    pub fn new(text: &'a [u8]) -> Cursor<'a>
        ensures text { result.text.now ≡ text.now }
        ensures left { (toks : List Token) → AreTokensOf text.now toks → IsLeft result toks }
    {
        Cursor {
            text,
            from: 0,
            is_open: false,
        }
    }

    /// Takes the next token off; none where none is left. The place grows with each.
    pub fn next_token(&mut self) -> Option<Found>
        requires { (toks : List Token) × IsLeft self.old toks }
        ensures takes { (toks : List Token) → IsLeft self.old toks → Takes result toks self.new }
        ensures text { self.new.text.now ≡ self.old.text.now }
        ensures place { IfSome result (λ found. found.at < self.new.from) }
        ensures grows { IfSome result (λ found. self.old.from < self.new.from) }
        ensures within { self.new.from ≤ length self.new.text.now }
    {
        while self.from < self.text.len() {
            let prefix = prefix(&self.text[self.from..], self.is_open)?;
            let at = self.from;
            *self = Cursor {
                text: self.text,
                from: at + prefix.len,
                is_open: prefix.is_open,
            };
            if let Piece::Token(token) = prefix.piece {
                return Some(Found { token, at });
            }
        }
        None
    }
}
