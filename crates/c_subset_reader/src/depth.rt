ghost use Rattle.std.specs.Prelude.{◌≡◌, ◌<◌, ◌≤◌, List, length, nat_lt, true, IfSome, MatchOption};
ghost use Rattle.c_faults.specs.Answers.{HasTokenAt, IsTooDeep};
ghost use Rattle.c_faults.specs.Brackets.{depth_with, is_within};
ghost use Rattle.c_grammar.specs.Reading.{whats};
ghost use Rattle.c_tokens.specs.Cutting.{Token};
ghost use Rattle.c_tokens.specs.Pieces.{What, Sym};
ghost use Rattle.c_subset_reader.specs.Depths.{IsDepthOf};
ghost use Rattle.c_subset_reader.specs.Taken.{HasTaken};
ghost use Rattle.c_words.specs.Words.{StandsFor};

use c_lexer::Cursor;
use c_tokens::Symbol;
use c_words::CToken;
use pipe_limits::MOST_OPEN_BRACKETS;

/// How many brackets are open behind a symbol.
fn depth_with_symbol(depth: u32, symbol: Symbol) -> u32
    requires { depth ≤ MOST_OPEN_BRACKETS }
    ensures { result ≡ depth_with depth (Sym symbol) }
{
    match symbol {
        Symbol::OpenParen | Symbol::OpenBrace => depth + 1,
        Symbol::CloseParen | Symbol::CloseBrace => depth.saturating_sub(1),
        _ => depth,
    }
}

/// How many brackets are open behind a token.
pub fn depth_with(depth: u32, token: CToken) -> u32
    requires { depth ≤ MOST_OPEN_BRACKETS }
    ensures { (what : What) → StandsFor token what → result ≡ depth_with depth what }
{
    match token {
        CToken::Sym(symbol) => depth_with_symbol(depth, symbol),
        _ => depth,
    }
}

/// Whether more brackets are open than may be.
pub fn is_too_deep(depth: u32) -> bool
    ensures { result ≡ nat_lt MOST_OPEN_BRACKETS depth }
{
    depth > MOST_OPEN_BRACKETS
}

/// The offset of the first bracket from a place on with which more are open than may be, where so many are
/// open at that place; none where none is.
pub fn depth_fault(cursor: Cursor, depth: u32) -> Option<usize>
    requires small { depth ≤ MOST_OPEN_BRACKETS }
    requires taken { (toks : List Token) × HasTaken (IsDepthOf depth) cursor toks }
    ensures fault { (toks : List Token) → HasTaken (IsDepthOf depth) cursor.entry toks
        → MatchOption result (is_within 0 (whats toks) ≡ true) (λ at. HasTokenAt at IsTooDeep toks) }
    ensures within { IfSome result (λ at. at < length cursor.entry.text.now) }
{
    let mut depth = depth;
    let mut cursor = cursor;
    while let Some(found) = cursor.next_token() {
        depth = depth_with(depth, found.token);
        if is_too_deep(depth) {
            return Some(found.at);
        }
    }
    None
}
