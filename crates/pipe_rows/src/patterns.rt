//! Names and patterns, a production each.

ghost use Rattle.pipe_reader.specs.Continuations.{ALabel, APattern};
ghost use Rattle.pipe_rows.specs.ReaderState.{ReadsFrom, GoesOn, braced_names, result_copy, end_of, left_of, single_name};
ghost use Rattle.pipe_rows.specs.FormReading.{Reads};
ghost use Rattle.pipe_tree.specs.TreeCopies.{label_of, pattern_of};

use crate::reader::Reader;
use crate::token_class::TokenClass;
use pipe_reader::Separator;
use pipe_tree::{Name, ParseFault, TPat};
use strm_num::List;

/// `NAME`: reads a name.
pub fn label(reader: &mut Reader) -> Result<Name, ParseFault>
    ensures reads { ReadsFrom ALabel reader.old label_of result reader.new }
    ensures on { GoesOn reader.old reader.new }
{
    if reader.class() != TokenClass::Name {
        return Err(reader.syntax());
    }
    let at = reader.offset();
    let text = List::from_slice(reader.alloc, reader.text())?;
    reader.advance();
    Ok(Name { at, text })
}

/// `pat = NAME`: reads a pattern of one name.
fn single(reader: &mut Reader) -> Result<TPat, ParseFault>
    ensures reads { ReadsFrom single_name reader.old pattern_of result reader.new }
    ensures on { GoesOn reader.old reader.new }
{
    let name = label(reader)?;
    let at = name.at;
    let mut names = List::new(reader.alloc);
    names.push(name)?;
    Ok(TPat {
        at,
        braces: false,
        names,
    })
}

/// `pat = "{" NAME { "," NAME } "}"`: reads what follows the brace of a pattern, which stands at this
/// offset.
fn braced(reader: &mut Reader, at: u32) -> Result<TPat, ParseFault>
    ensures reads { ReadsFrom (braced_names at) reader.old pattern_of result reader.new }
    ensures on { GoesOn reader.old reader.new }
{
    let mut names = List::new(reader.alloc);
    names.push(label(reader)?)?;
    while reader.is_next(Separator::Comma) {
        reader.advance();
        names.push(label(reader)?)?;
    }
    reader.separator(Separator::CloseBrace)?;
    Ok(TPat {
        at,
        braces: true,
        names,
    })
}

/// `pat = NAME | "{" NAME { "," NAME } "}"`: reads a pattern, a name or names in braces.
pub fn pattern(reader: &mut Reader) -> Result<TPat, ParseFault>
    ensures reads { ReadsFrom APattern reader.old pattern_of result reader.new }
    ensures on { GoesOn reader.old reader.new }
{
    if !reader.is_brace_next() {
        return single(reader);
    }
    let at = reader.offset();
    reader.advance();
    braced(reader, at)
}
