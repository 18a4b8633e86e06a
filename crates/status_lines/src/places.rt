//! The kind of a fault, which is its name in the code, and its place in bytes. Want of memory has the
//! place 0.

ghost use Rattle.std.specs.Prelude.{◌≡◌};
ghost use Rattle.status_lines.specs.FaultTexts.{c_text, lex_text, parse_text, placed_text, refusal_text};
ghost use Rattle.status_lines.specs.FaultTexts.{type_text, value_text};

use crate::refusals::Refusal;
use c_faults::CFault;
use kind_rules::TypeFault;
use pipe_lexer::LexFault;
use pipe_tree::ParseFault;
use value_files::ValueFault;

/// A kind of fault and a place in bytes.
#[derive(Clone, Copy)]
pub(crate) struct Placed {
    pub(crate) kind: &'static str,
    pub(crate) at: u64,
}

/// A kind of fault and the offset of its place.
fn kind_at(kind: &'static str, at: u32) -> Placed
    ensures kind { result.kind.now ≡ kind.now }
    ensures at { result.at ≡ at }
{
    Placed {
        kind,
        at: u64::from(at),
    }
}

fn lex_placed(fault: LexFault) -> Placed
    ensures { placed_text result.kind.now result.at ≡ lex_text fault }
{
    match fault {
        LexFault::NotUtf8(at) => kind_at("NotUtf8", at),
        LexFault::BadChar(at) => kind_at("BadChar", at),
        LexFault::NumberTooLarge(at) => kind_at("NumberTooLarge", at),
        LexFault::NoMemory => kind_at("NoMemory", 0),
    }
}

fn parse_placed(fault: ParseFault) -> Placed
    ensures { placed_text result.kind.now result.at ≡ parse_text fault }
{
    match fault {
        ParseFault::Syntax(at) => kind_at("Syntax", at),
        ParseFault::TooDeep(at) => kind_at("TooDeep", at),
        ParseFault::TooManyInputs(at) => kind_at("TooManyInputs", at),
        ParseFault::TooManyOps(at) => kind_at("TooManyOps", at),
        ParseFault::TooManyNodes(at) => kind_at("TooManyNodes", at),
        ParseFault::NoMemory => kind_at("NoMemory", 0),
    }
}

fn type_placed(fault: TypeFault) -> Placed
    ensures { placed_text result.kind.now result.at ≡ type_text fault }
{
    match fault {
        TypeFault::Unknown(at) => kind_at("Unknown", at),
        TypeFault::Twice(at) => kind_at("Twice", at),
        TypeFault::Mismatch(at) => kind_at("Mismatch", at),
        TypeFault::WidthMismatch(at) => kind_at("WidthMismatch", at),
        TypeFault::TooWide(at) => kind_at("TooWide", at),
        TypeFault::DivisionInOpening(at) => kind_at("DivisionInOpening", at),
        TypeFault::NotArray(at) => kind_at("NotArray", at),
        TypeFault::NoMemory => kind_at("NoMemory", 0),
    }
}

fn c_placed(fault: CFault) -> Placed
    ensures { placed_text result.kind.now result.at ≡ c_text fault }
{
    match fault {
        CFault::Lex(at) => kind_at("Lex", at),
        CFault::TooDeep(at) => kind_at("TooDeep", at),
        CFault::Syntax(at) => kind_at("Syntax", at),
        CFault::Unbound(at) => kind_at("Unbound", at),
        CFault::NoMemory => kind_at("NoMemory", 0),
    }
}

/// What a file is refused for.
pub(crate) fn refusal_placed(refusal: Refusal) -> Placed
    ensures { placed_text result.kind.now result.at ≡ refusal_text refusal }
{
    match refusal {
        Refusal::Lex(fault) => lex_placed(fault),
        Refusal::Parse(fault) => parse_placed(fault),
        Refusal::Kinds(fault) => type_placed(fault),
        Refusal::C(fault) => c_placed(fault),
    }
}

/// The fault of a file of values.
pub(crate) fn value_placed(fault: ValueFault) -> Placed
    ensures { placed_text result.kind.now result.at ≡ value_text fault }
{
    let (kind, at) = match fault {
        ValueFault::Bad(at) => ("Bad", at),
        ValueFault::Range(at) => ("Range", at),
        ValueFault::TooMany(at) => ("TooMany", at),
        ValueFault::NoMemory => ("NoMemory", 0),
    };
    Placed { kind, at }
}
