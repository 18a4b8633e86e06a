//! Expressions.

ghost use Rattle.pipe_reader.specs.Continuations.{expression};
ghost use Rattle.pipe_rows.specs.FormReading.{Reads};
ghost use Rattle.pipe_rows.specs.ReaderState.{ReadsFrom, GoesOn, result_copy, end_of, left_of};
ghost use Rattle.pipe_tree.specs.TreeCopies.{boxed_copy, formula_of};

use crate::reader::Reader;
use exact_reader::Stack;
use pipe_expressions::{Mode, Step, finish, is_within_depth, step};
use pipe_tree::{ParseFault, TExpr};

/// `expr = "if" expr "then" expr "else" expr | or`: reads an expression up to the first token that
/// isn't its own. Otherwise it stops at a token, or at the end: with `Syntax` where no expression goes
/// on with it, and with `TooDeep` where only expressions do that are more than 200 deep.
pub fn expression(reader: &mut Reader) -> Result<Box<TExpr>, ParseFault>
    ensures reads { ReadsFrom expression reader.old (boxed_copy formula_of) result reader.new }
    ensures on { GoesOn reader.old reader.new }
{
    let mut forms = Stack::new(reader.alloc);
    let mut mode = Mode::Need;
    while let Some(kind) = reader.kind() {
        let at = reader.offset();
        match step(reader.alloc, &mut forms, mode, kind, reader.text(), at)? {
            Step::Goes(next) => {
                if !is_within_depth(&forms, &next) {
                    return Err(ParseFault::TooDeep(reader.offset()));
                }
                mode = next;
                reader.advance();
            }
            Step::Leaves(e) => return Ok(e),
            Step::Stuck => return Err(reader.syntax()),
        }
    }
    match finish(reader.alloc, &mut forms, mode)? {
        Some(e) => Ok(e),
        None => Err(reader.syntax()),
    }
}
