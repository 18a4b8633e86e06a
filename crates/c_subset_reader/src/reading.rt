ghost use Rattle.std.specs.Prelude.{◌≡◌, ◌≤◌, length, IfErr, IfOk, MatchResult};
ghost use Rattle.c_faults.specs.Answers.{Answer, IsSameUnlessRefused, ReadsAs};
ghost use Rattle.c_program_reader.specs.StateCopies.{routine_of};
ghost use Rattle.c_subset_reader.specs.TextAnswers.{HasFault, IsPlaceWithin, IsTextOf, answer_of, fault_behind};
ghost use Rattle.loop_ir.specs.WellFormed.{IsWellFormed};

use crate::header::behind_header;
use crate::names::name_fault;
use crate::parsing::parsed;
use c_faults::{
    CFault, declared_tokens_are_declared_names, programs_have_few_params,
    programs_of_texts_have_words, texts_have_one_answer,
};
use c_lexer::first_fault;
use c_program_reader::Parsed;
use loop_ir::Prog;
use pipe_limits::MOST_C_BYTES;
use std::alloc::Global;

/// The parts of the program of a text behind the line of the header. The place of a fault is an offset in
/// this text.
fn parts_of(alloc: Global, text: &[u8]) -> Result<Box<Parsed>, CFault>
    requires { length text.now ≤ MOST_C_BYTES }
    ensures answers { MatchResult result (λ parts. IsTextOf text.now (routine_of parts.value))
        (HasFault text.now) }
    ensures within { IfErr result (IsPlaceWithin (length text.now)) }
    ensures well_formed { IfOk result (λ parts. IsWellFormed (routine_of parts.value)) }
{
    declared_tokens_are_declared_names();
    programs_of_texts_have_words();
    programs_have_few_params();
    if let Some(at) = first_fault(text) {
        return Err(CFault::Lex(at as u32));
    }
    let parts = parsed(alloc, text)?;
    if let Some(at) = name_fault(text, &parts) {
        return Err(CFault::Unbound(at as u32));
    }
    Ok(parts)
}

/// A fault at its place in the whole text, which has so many bytes before the one that was read.
fn fault_behind(head: u32, fault: CFault) -> CFault
    requires short { head ≤ MOST_C_BYTES }
    requires within { IsPlaceWithin MOST_C_BYTES fault }
    ensures { result ≡ fault_behind head fault }
{
    match fault {
        CFault::Lex(at) => CFault::Lex(head + at),
        CFault::TooDeep(at) => CFault::TooDeep(head + at),
        CFault::Syntax(at) => CFault::Syntax(head + at),
        CFault::Unbound(at) => CFault::Unbound(head + at),
        CFault::NoMemory => CFault::NoMemory,
    }
}

/// The program of a C text of at most 33,554,432 bytes, or its first fault.
///
/// The text is read as c_grammar's `specs/Reading` says: behind the line of the header its tokens are
/// those of one program, which is what comes out. The faults are looked for in their order, each at its
/// place in bytes from the start of the text, and only where none of those before it is there.
/// `Syntax(0)` where the text doesn't begin with the line of the header; `Lex` where no token, blank or
/// whole comment begins; `TooDeep` at the bracket with which more than `MOST_OPEN_BRACKETS` are open; `Syntax`
/// at the first token with which no program goes on, or at the end of a text that only begins one; and
/// `Unbound` at the first name that isn't declared. `NoMemory` alone may be answered at any time.
///
/// Time and memory grow with the length of the text alone.
pub fn read_c(alloc: Global, c: &[u8]) -> Result<Prog, CFault>
    requires { length c.now ≤ MOST_C_BYTES }

    // The text reads as the program, or has the fault at its place.
    ensures reads { ReadsAs c.now (answer_of result) }

    // Each answer is given exactly where it is right, but for a refusal of memory.
    ensures only { (other : Answer) → ReadsAs c.now other
        → IsSameUnlessRefused (answer_of result) other }
{
    texts_have_one_answer();
    let Some(text) = behind_header(c) else {
        return Err(CFault::Syntax(0));
    };
    let head = (c.len() - text.len()) as u32;
    match parts_of(alloc, text) {
        Ok(parts) => {
            let Parsed { params, vars, body } = Box::into_inner(parts);
            Ok(Prog { params, vars, body })
        }
        Err(fault) => Err(fault_behind(head, fault)),
    }
}
