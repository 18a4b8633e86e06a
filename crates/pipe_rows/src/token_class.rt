//! The classes of tokens, as the forms around expressions see them.

ghost use Rattle.std.specs.Prelude.{◌≡◌, ℕ, List};
ghost use Rattle.pipe_reader.specs.Continuations.{class_of};
ghost use Rattle.pipe_rows.specs.TokenClassCopies.{class_copy};
ghost use Rattle.pipe_tree.specs.Tokens.{what_of};

use pipe_lexer::{Keyword, Symbol, TokenKind};
use pipe_reader::{Separator, SourceForm, StageForm, TerminalForm};

/// What a token is to the forms around expressions: a name, a separator, a keyword that begins a form,
/// or none of these.
#[derive(Clone, Copy, PartialEq, Eq)]
pub enum TokenClass {
    Name,
    Separator(Separator),
    Bar,
    OpenBrace,
    Input,
    Int,
    Source(SourceForm),
    Stage(StageForm),
    Terminal(TerminalForm),
    Nothing,
}

/// The class of a keyword.
fn keyword_class(keyword: Keyword) -> TokenClass
    ensures { (text : List ℕ) → class_copy result text
        ≡ class_of (what_of (TokenKind.Key keyword) text) }
{
    match keyword {
        Keyword::With => TokenClass::Separator(Separator::With),
        Keyword::While => TokenClass::Separator(Separator::While),
        Keyword::Yield => TokenClass::Separator(Separator::Yield),
        Keyword::Next => TokenClass::Separator(Separator::Next),
        Keyword::Input => TokenClass::Input,
        Keyword::Int => TokenClass::Int,
        Keyword::Array => TokenClass::Source(SourceForm::Array),
        Keyword::Range => TokenClass::Source(SourceForm::Range),
        Keyword::Unfold => TokenClass::Source(SourceForm::Unfold),
        Keyword::Zip => TokenClass::Source(SourceForm::Zip),
        Keyword::Map => TokenClass::Stage(StageForm::Map),
        Keyword::Filter => TokenClass::Stage(StageForm::Filter),
        Keyword::TakeWhile => TokenClass::Stage(StageForm::TakeWhile),
        Keyword::Take => TokenClass::Stage(StageForm::Take),
        Keyword::Drop => TokenClass::Stage(StageForm::Drop),
        Keyword::Scan => TokenClass::Stage(StageForm::Scan),
        Keyword::FlatMap => TokenClass::Stage(StageForm::FlatMap),
        Keyword::Fold => TokenClass::Terminal(TerminalForm::Fold),
        Keyword::Print => TokenClass::Terminal(TerminalForm::Print),
        _ => TokenClass::Nothing,
    }
}

/// The class of a symbol.
fn symbol_class(symbol: Symbol) -> TokenClass
    ensures { (text : List ℕ) → class_copy result text
        ≡ class_of (what_of (TokenKind.Sym symbol) text) }
{
    match symbol {
        Symbol::Arrow => TokenClass::Separator(Separator::Arrow),
        Symbol::OpenParen => TokenClass::Separator(Separator::OpenParen),
        Symbol::CloseParen => TokenClass::Separator(Separator::CloseParen),
        Symbol::CloseBrace => TokenClass::Separator(Separator::CloseBrace),
        Symbol::Comma => TokenClass::Separator(Separator::Comma),
        Symbol::Colon => TokenClass::Separator(Separator::Colon),
        Symbol::Semicolon => TokenClass::Separator(Separator::Semicolon),
        Symbol::Bar => TokenClass::Bar,
        Symbol::OpenBrace => TokenClass::OpenBrace,
        _ => TokenClass::Nothing,
    }
}

/// The class of a token of this kind.
pub fn class_of_kind(kind: TokenKind) -> TokenClass
    ensures { (text : List ℕ) → class_copy result text ≡ class_of (what_of kind text) }
{
    match kind {
        TokenKind::Name => TokenClass::Name,
        TokenKind::Number(_) => TokenClass::Nothing,
        TokenKind::Key(keyword) => keyword_class(keyword),
        TokenKind::Sym(symbol) => symbol_class(symbol),
    }
}
