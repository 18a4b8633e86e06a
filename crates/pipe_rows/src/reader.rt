//! The tokens of a text that are left to read, and the steps past one of them.

ghost use Rattle.std.specs.Prelude.{◌≤◌, length};
ghost use Rattle.pipe_limits.specs.declared.TheConstants.{MOST_BYTES};
ghost use Rattle.pipe_tree.specs.Tokens.{AreSlices};

use crate::token_class::{TokenClass, class_of_kind};
use pipe_lexer::{Token, TokenKind};
use pipe_reader::Separator;
use pipe_tree::ParseFault;
use std::alloc::Global;

/// The tokens of a text that are left to read.
#[derive(Drop)]
pub struct Reader<'a> {
    pub alloc: Global,
    pub src: &'a [u8],
    pub left: &'a [Token],
    ghost short: { length src.now ≤ MOST_BYTES },
    ghost slices: { AreSlices (length src.now) left.now },
}

impl Reader<'_> {
    ghost use Rattle.std.specs.Prelude.{◌≡◌, ◌-◌};
    ghost use Rattle.pipe_reader.specs.Continuations.{is_separator};
    ghost use Rattle.pipe_rows.specs.TokenClassCopies.{class_copy};
    ghost use Rattle.pipe_tree.specs.Parsing.{offset_or_end};
    ghost use Rattle.pipe_rows.specs.ReaderState.{GoesOn, tokens_behind, end_of, is_bar, is_brace, is_end, is_input, kind_left, class_at, left_of, text_left, separator_form};
    ghost use Rattle.pipe_rows.specs.FormReading.{Reads};

    /// What the next token is, or none where no token is left.
    pub fn kind(&self) -> Option<TokenKind>
        ensures { result ≡ kind_left self.now.left.now }
    {
        match self.left {
            [first, ..] => Some(first.kind),
            [] => None,
        }
    }

    /// The class of the next token; `Nothing` where no token is left.
    pub fn class(&self) -> TokenClass
        ensures { class_copy result (text_left self.now) ≡ class_at (left_of self.now) }
    {
        match self.left {
            [first, ..] => class_of_kind(first.kind),
            [] => TokenClass::Nothing,
        }
    }

    /// The offset of the next token, or the text's length where no token is left.
    pub fn offset(&self) -> u32
        ensures { result ≡ offset_or_end (end_of self.now) (left_of self.now) }
    {
        match self.left {
            [first, ..] => first.at,
            [] => self.src.len() as u32,
        }
    }

    /// The bytes of the next token, or none where no token is left.
    pub fn text(&self) -> &[u8]
        ensures { result.now ≡ text_left self.now }
    {
        match self.left {
            [first, ..] => &self.src[first.at as usize..first.end as usize],
            [] => &[],
        }
    }

    /// Goes past the next token, if one is left.
    pub fn advance(&mut self)
        ensures on { GoesOn self.old self.new }
        ensures left { left_of self.new ≡ tokens_behind (left_of self.old) }
        ensures fewer { length self.new.left.now ≡ length self.old.left.now - 1 }
    {
        if let [_, rest @ ..] = self.left {
            self.left = rest;
        }
    }

    /// The fault that nothing goes on with the next token.
    pub fn syntax(&self) -> ParseFault
        ensures { result ≡ ParseFault.Syntax (offset_or_end (end_of self.now) (left_of self.now)) }
    {
        ParseFault::Syntax(self.offset())
    }

    /// Whether this separator is next.
    pub fn is_next(&self, separator: Separator) -> bool
        ensures { result ≡ is_separator separator (class_at (left_of self.now)) }
    {
        self.class() == TokenClass::Separator(separator)
    }

    /// Whether no token is left.
    pub fn is_done(&self) -> bool
        ensures { result ≡ is_end (left_of self.now) }
    {
        self.left.is_empty()
    }

    /// Whether the keyword of a declaration is next.
    pub fn is_input_next(&self) -> bool
        ensures { result ≡ is_input (class_at (left_of self.now)) }
    {
        self.class() == TokenClass::Input
    }

    /// Whether a bar is next.
    pub fn is_bar_next(&self) -> bool
        ensures { result ≡ is_bar (class_at (left_of self.now)) }
    {
        self.class() == TokenClass::Bar
    }

    /// Whether an opening brace is next.
    pub fn is_brace_next(&self) -> bool
        ensures { result ≡ is_brace (class_at (left_of self.now)) }
    {
        self.class() == TokenClass::OpenBrace
    }

    /// Goes past this separator; `Syntax` where another token is next.
    pub fn separator(&mut self, separator: Separator) -> Result<(), ParseFault>
        ensures reads { Reads (separator_form separator) (end_of self.old) (left_of self.old) result
            (left_of self.new) }
        ensures on { GoesOn self.old self.new }
    {
        if !self.is_next(separator) {
            return Err(self.syntax());
        }
        self.advance();
        Ok(())
    }
}
