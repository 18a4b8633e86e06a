ghost use Rattle.std.specs.Prelude.{◌≡◌, ◌≢◌, ◌<◌, ◌^◌, ◌++◌, ℕ, decimal, MatchOption};
ghost use Rattle.c_tokens.specs.Pieces.{Word};
ghost use Rattle.c_words.specs.Words.{keyword_text, letter_text, StandsFor};
ghost use Rattle.c_words.specs.declared.token.Keyword.{Keyword};
ghost use Rattle.c_words.specs.declared.token.Letter.{Letter};
ghost use Rattle.c_lexer.specs.Names.{HasLetter, IsNameToken};
ghost use Rattle.c_words.specs.declared.token.CToken.{CToken};

use crate::numbers::number;
use c_words::{CToken, Keyword, Letter};

/// The keyword that is written so.
fn keyword_of(word: &[u8]) -> Option<Keyword>
    ensures { MatchOption result ((k : Keyword) → keyword_text k ≢ word.now) (λ k. keyword_text k ≡ word.now) }
{
    match word {
        b"int" => Some(Keyword::Int),
        b"pipeline" => Some(Keyword::Pipeline),
        b"void" => Some(Keyword::Void),
        b"const" => Some(Keyword::Const),
        b"uint64_t" => Some(Keyword::Uint64),
        b"if" => Some(Keyword::If),
        b"else" => Some(Keyword::Else),
        b"while" => Some(Keyword::While),
        b"break" => Some(Keyword::Break),
        b"return" => Some(Keyword::Return),
        b"EMIT" => Some(Keyword::Emit),
        b"ENDROW" => Some(Keyword::EndRow),
        _ => None,
    }
}

/// What a letter at the start of a name says that it names.
fn letter_of(c: u8) -> Option<Letter>
    ensures { HasLetter c result }
{
    match c {
        b'v' => Some(Letter::Variable),
        b'a' => Some(Letter::Array),
        b'n' => Some(Letter::Length),
        b'i' => Some(Letter::Int),
        _ => None,
    }
}

/// The name that a word is.
fn name_token(word: &[u8]) -> Option<CToken>
    ensures { MatchOption result ((t : CToken) → IsNameToken word.now t → ⊥) (IsNameToken word.now) }
{
    let [first, digits @ ..] = word else {
        return None;
    };
    let letter = letter_of(*first)?;
    let number = number(digits)?;
    match u32::try_from(number) {
        Ok(number) => Some(CToken::Name(letter, number)),
        Err(_) => None,
    }
}

/// What a reader sees in a word.
pub fn word_token(word: &[u8]) -> CToken
    ensures { StandsFor result (Word word.now) }
{
    if let Some(name) = name_token(word) {
        return name;
    }
    match keyword_of(word) {
        Some(keyword) => CToken::Key(keyword),
        None => CToken::OtherWord,
    }
}
