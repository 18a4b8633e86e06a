//! A declaration.

ghost use Rattle.pipe_reader.specs.Continuations.{AKind, declaration_form};
ghost use Rattle.pipe_rows.specs.FormReading.{Reads};
ghost use Rattle.pipe_rows.specs.ReaderState.{ReadsFrom, GoesOn, result_copy, end_of, left_of};
ghost use Rattle.pipe_tree.specs.TreeCopies.{declaration_of};

use crate::patterns::label;
use crate::reader::Reader;
use crate::token_class::TokenClass;
use pipe_lexer::InputKind;
use pipe_reader::{Separator, SourceForm};
use pipe_tree::{Decl, ParseFault};

/// `"array" | "int"`: reads the kind of an input.
fn kind(reader: &mut Reader) -> Result<InputKind, ParseFault>
    ensures reads { Reads AKind (end_of reader.old) (left_of reader.old) result
        (left_of reader.new) }
    ensures on { GoesOn reader.old reader.new }
{
    match reader.class() {
        TokenClass::Source(SourceForm::Array) => {
            reader.advance();
            Ok(InputKind::Array)
        }
        TokenClass::Int => {
            reader.advance();
            Ok(InputKind::Int)
        }
        _ => Err(reader.syntax()),
    }
}

/// `decl = "input" NAME ":" ( "array" | "int" ) ";"`: reads what follows `input`, which stands at this
/// offset.
pub fn declaration(reader: &mut Reader, at: u32) -> Result<Decl, ParseFault>
    ensures reads { ReadsFrom (declaration_form at) reader.old declaration_of result reader.new }
    ensures on { GoesOn reader.old reader.new }
{
    let name = label(reader)?;
    reader.separator(Separator::Colon)?;
    let kind = kind(reader)?;
    reader.separator(Separator::Semicolon)?;
    Ok(Decl { at, name, kind })
}
