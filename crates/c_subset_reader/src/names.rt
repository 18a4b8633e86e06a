ghost use Rattle.std.specs.Prelude.{◌≡◌, ◌<◌, List, All, length, IfSome, MatchOption};
ghost use Rattle.c_faults.specs.Answers.{HasTokenAt};
ghost use Rattle.c_faults.specs.Undeclared.{IsDeclared, IsUndeclared};
ghost use Rattle.c_tokens.specs.Cutting.{Token, AreTokensOf};
ghost use Rattle.c_grammar.specs.Grammar.{IsProgram};
ghost use Rattle.c_grammar.specs.Reading.{whats};
ghost use Rattle.c_program_reader.specs.StateCopies.{routine_of};
ghost use Rattle.c_subset_reader.specs.SeenNames.{is_declared_letter, is_declared_token};
ghost use Rattle.loop_ir.specs.DeclaredNames.{declared_names};

use crate::leaves::block_names;
use c_faults::declared_tokens_are_declared_names;
use c_lexer::Cursor;
use c_program_reader::Parsed;
use c_words::{CToken, Letter};
use loop_ir::{InputKind, InputKinds};

/// Whether a name is declared.
pub fn is_declared_letter(letter: Letter, k: u32, params: &InputKinds, vars: u32) -> bool
    ensures { result ≡ is_declared_letter (declared_names params.now vars) letter k }
{
    match letter {
        Letter::Variable => k < vars,
        Letter::Array | Letter::Length => {
            matches!(params.as_slice().get(k as usize), Some(InputKind::Array))
        }
        Letter::Int => matches!(params.as_slice().get(k as usize), Some(InputKind::Int)),
    }
}

/// Whether a token is declared, if it is a name.
fn is_declared(token: CToken, params: &InputKinds, vars: u32) -> bool
    ensures { result ≡ is_declared_token (declared_names params.now vars) token }
{
    match token {
        CToken::Name(letter, k) => is_declared_letter(letter, k, params, vars),
        _ => true,
    }
}

/// The offset of the first name that a program with these parameters and so many variables doesn't
/// declare; none where all are declared.
fn first_undeclared(text: &[u8], params: &InputKinds, vars: u32) -> Option<usize>
    requires { (toks : List Token) × AreTokensOf text.now toks }
    ensures fault { (toks : List Token) → AreTokensOf text.now toks
        → let names = declared_names params.now vars in
        MatchOption result (All (λ (t : Token). IsDeclared names t.what) toks)
        (λ at. HasTokenAt at (λ before t. All (λ u. IsDeclared names u.what) before
        × IsUndeclared names t.what) toks) }
    ensures within { IfSome result (λ at. at < length text.now) }
{
    let mut cursor = Cursor::new(text);
    while let Some(found) = cursor.next_token() {
        if !is_declared(found.token, params, vars) {
            return Some(found.at);
        }
    }
    None
}

/// The offset of the first name that the program of a text doesn't declare; none where all are declared.
///
/// The text is gone through only where a name in the program's statements isn't declared.
pub fn name_fault(text: &[u8], parts: &Parsed) -> Option<usize>
    requires tokens { (toks : List Token) × AreTokensOf text.now toks }
    requires program { (toks : List Token) → AreTokensOf text.now toks → IsProgram (routine_of parts.now) (whats toks) }
    ensures fault { (toks : List Token) → AreTokensOf text.now toks
        → let names = declared_names parts.now.params parts.now.vars in
        MatchOption result (All (λ (t : Token). IsDeclared names t.what) toks)
        (λ at. HasTokenAt at (λ before t. All (λ u. IsDeclared names u.what) before
        × IsUndeclared names t.what) toks) }
    ensures within { IfSome result (λ at. at < length text.now) }
{
    declared_tokens_are_declared_names();
    if block_names(parts.body.as_slice(), &parts.params, parts.vars) {
        return None;
    }
    first_undeclared(text, &parts.params, parts.vars)
}
