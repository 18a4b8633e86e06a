//! Declarations.

ghost use Rattle.std.specs.Prelude.{map};
ghost use Rattle.pipe_grammar.specs.WholeTexts.{whole_text};
ghost use Rattle.pipe_reader.specs.Continuations.{AStream, ending};
ghost use Rattle.pipe_rows.specs.ReaderState.{StartsFrom, GoesOn, Starts, result_copy, end_of, left_of};
ghost use Rattle.pipe_tree.specs.TreeCopies.{declaration_of};

use pipe_rows::{Reader, declaration};
use pipe_tree::{Decls, ParseFault};
use strm_num::List;

/// `{ decl }`: reads the declarations of a text.
pub fn declarations(reader: &mut Reader) -> Result<Decls, ParseFault>
    ensures starts { StartsFrom whole_text reader.old (map declaration_of) result
        (λ ds f. AStream 0 (ending ds)) reader.new }
    ensures on { GoesOn reader.old reader.new }
{
    let mut inputs = List::new(reader.alloc);
    while reader.is_input_next() {
        let at = reader.offset();
        reader.advance();
        inputs.push(declaration(reader, at)?)?;
    }
    Ok(inputs)
}
