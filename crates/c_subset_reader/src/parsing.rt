ghost use Rattle.std.specs.Prelude.{◌≡◌, ◌<◌, ◌^◌, List, length, IfErr, IfOk, MatchResult, option_map, true};
ghost use Rattle.std.specs.Option.{ForSome};
ghost use Rattle.c_automaton.specs.Automaton.{finish, start};
ghost use Rattle.c_faults.specs.Brackets.{is_within};
ghost use Rattle.c_grammar.specs.Grammar.{IsProgram};
ghost use Rattle.c_grammar.specs.Reading.{whats};
ghost use Rattle.c_program_reader.specs.StateCopies.{routine_of, state_of};
ghost use Rattle.c_subset_reader.specs.Reached.{IsReached};
ghost use Rattle.c_subset_reader.specs.TextAnswers.{IsPlaceWithin, IsTokenFault};
ghost use Rattle.c_tokens.specs.Cutting.{Token, AreTokensOf};

use crate::depth::{depth_fault, depth_with, is_too_deep};
use c_automaton::programs_are_read_exactly;
use c_faults::{CFault, programs_of_texts_have_few_variables};
use c_lexer::Cursor;
use c_program_reader::{Parsed, ProgramReader};
use std::alloc::Global;
use strm_num::NoMemory;

/// The reader before the first token.
fn new_reader(alloc: Global) -> Result<Box<ProgramReader>, NoMemory>
    ensures { IfOk result (λ reader. state_of reader.value ≡ start) }
{
    Ok(Box::new(alloc, ProgramReader::new(alloc)?)?)
}

/// The parts of the program, where the tokens end; none if they only begin one.
fn finish(alloc: Global, reader: Box<ProgramReader>) -> Result<Option<Box<Parsed>>, NoMemory>
    requires { ForSome (finish (state_of reader.value)) (λ q. q.vars < 2 ^ 32) }
    ensures { IfOk result (λ found. finish (state_of reader.value)
        ≡ option_map (λ parts. routine_of parts.value) found) }
{
    match Box::into_inner(reader).finish() {
        Some(parts) => Ok(Some(Box::new(alloc, parts)?)),
        None => Ok(None),
    }
}

/// Takes all tokens; or answers the bracket that is too deep, or, where none is, the first token with which
/// no program goes on.
fn take_all(reader: &mut ProgramReader, text: &[u8]) -> Result<(), CFault>
    requires short { length text.now < 2 ^ 32 }
    requires fresh { state_of reader.old ≡ start }
    requires tokens { (toks : List Token) × AreTokensOf text.now toks }
    ensures takes { (toks : List Token) → AreTokensOf text.now toks → MatchResult result
        (λ done. (is_within 0 (whats toks) ≡ true) × IsReached (state_of reader.new) toks)
        (IsTokenFault text.now toks) }
    ensures within { IfErr result (IsPlaceWithin (length text.now)) }
{
    programs_are_read_exactly();
    let mut depth = 0;
    let mut cursor = Cursor::new(text);
    while let Some(found) = cursor.next_token() {
        depth = depth_with(depth, found.token);
        if is_too_deep(depth) {
            return Err(CFault::TooDeep(found.at as u32));
        }
        if !reader.take(found.token)? {
            return match depth_fault(cursor, depth) {
                Some(at) => Err(CFault::TooDeep(at as u32)),
                None => Err(CFault::Syntax(found.at as u32)),
            };
        }
    }
    Ok(())
}

/// The parts of the program whose tokens a text has; or the offset of the bracket that is too deep, or,
/// where none is, the offset where the tokens stop to begin a program: that of a token, or the text's length.
pub fn parsed(alloc: Global, text: &[u8]) -> Result<Box<Parsed>, CFault>
    requires short { length text.now < 2 ^ 32 }
    requires tokens { (toks : List Token) × AreTokensOf text.now toks }
    ensures parses { (toks : List Token) → AreTokensOf text.now toks → MatchResult result
        (λ parts. (is_within 0 (whats toks) ≡ true) × IsProgram (routine_of parts.value) (whats toks))
        (IsTokenFault text.now toks) }
    ensures within { IfErr result (IsPlaceWithin (length text.now)) }
{
    programs_are_read_exactly();
    programs_of_texts_have_few_variables();
    let mut reader = new_reader(alloc)?;
    take_all(&mut reader, text)?;
    match finish(alloc, reader)? {
        Some(parts) => Ok(parts),
        None => Err(CFault::Syntax(text.len() as u32)),
    }
}
