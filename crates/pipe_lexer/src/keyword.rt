ghost use Rattle.std.specs.Prelude.{◌≡◌, ◌≢◌, ◌↔◌, length, IsTrue, MatchOption};
ghost use Rattle.pipe_lexer.specs.Keywords.{keyword_text};
ghost use Rattle.pipe_lexer.specs.declared.keyword.Keyword.{Keyword};

/// The keywords, the reserved ones too, each named as it is written.
#[derive(Clone, Copy, Debug)]
pub enum Keyword {
    Input,
    Array,
    Int,
    Range,
    Unfold,
    With,
    While,
    Yield,
    Next,
    Zip,
    Map,
    Filter,
    Take,
    Drop,
    TakeWhile,
    Scan,
    FlatMap,
    Fold,
    Print,
    If,
    Then,
    Else,
    True,
    False,
    Len,
    Window,
    Pairwise,
    Index,
    Sum,
    Count,
    Least,
    Greatest,
}

/// All of them, in their order.
const KEYWORDS: [Keyword; 32] = [
    Keyword::Input,
    Keyword::Array,
    Keyword::Int,
    Keyword::Range,
    Keyword::Unfold,
    Keyword::With,
    Keyword::While,
    Keyword::Yield,
    Keyword::Next,
    Keyword::Zip,
    Keyword::Map,
    Keyword::Filter,
    Keyword::Take,
    Keyword::Drop,
    Keyword::TakeWhile,
    Keyword::Scan,
    Keyword::FlatMap,
    Keyword::Fold,
    Keyword::Print,
    Keyword::If,
    Keyword::Then,
    Keyword::Else,
    Keyword::True,
    Keyword::False,
    Keyword::Len,
    Keyword::Window,
    Keyword::Pairwise,
    Keyword::Index,
    Keyword::Sum,
    Keyword::Count,
    Keyword::Least,
    Keyword::Greatest,
];

/// How a keyword is written.
fn spelling(keyword: Keyword) -> &'static str
    ensures { result.now ≡ keyword_text keyword }
{
    match keyword {
        Keyword::Input => "input",
        Keyword::Array => "array",
        Keyword::Int => "int",
        Keyword::Range => "range",
        Keyword::Unfold => "unfold",
        Keyword::With => "with",
        Keyword::While => "while",
        Keyword::Yield => "yield",
        Keyword::Next => "next",
        Keyword::Zip => "zip",
        Keyword::Map => "map",
        Keyword::Filter => "filter",
        Keyword::Take => "take",
        Keyword::Drop => "drop",
        Keyword::TakeWhile => "takeWhile",
        Keyword::Scan => "scan",
        Keyword::FlatMap => "flatMap",
        Keyword::Fold => "fold",
        Keyword::Print => "print",
        Keyword::If => "if",
        Keyword::Then => "then",
        Keyword::Else => "else",
        Keyword::True => "true",
        Keyword::False => "false",
        Keyword::Len => "len",
        Keyword::Window => "window",
        Keyword::Pairwise => "pairwise",
        Keyword::Index => "index",
        Keyword::Sum => "sum",
        Keyword::Count => "count",
        Keyword::Least => "least",
        Keyword::Greatest => "greatest",
    }
}

/// Whether the characters are this ASCII text.
fn is_written(chars: &[char], text: &str) -> bool
    ensures { IsTrue result ↔ (chars.now ≡ text.now) }
{
    let bytes = text.as_bytes();
    if chars.len() != bytes.len() {
        return false;
    }
    for (i, c) in chars.iter().enumerate() {
        if *c as u32 != bytes[i] as u32 {
            return false;
        }
    }
    true
}

/// The keyword that is written so, or none.
pub fn keyword_of(identifier: &[char]) -> Option<Keyword>
    ensures { MatchOption result ((k : Keyword) → keyword_text k ≢ identifier.now)
        (λ k. keyword_text k ≡ identifier.now) }
{
    for keyword in KEYWORDS {
        if is_written(identifier, spelling(keyword)) {
            return Some(keyword);
        }
    }
    None
}
