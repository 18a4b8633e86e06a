//! Whole texts.

ghost use Rattle.std.specs.Prelude.{◌≤◌, length};
ghost use Rattle.pipe_reader.specs.Continuations.{terminal_form};
ghost use Rattle.pipe_reader.specs.declared.forms.TerminalForm.TheVariants.{Fold as FoldForm};
ghost use Rattle.pipe_tree.specs.Parsing.{offset_or_end};
ghost use Rattle.pipe_rows.specs.ReaderState.{ReadsFrom, GoesOn, result_copy, end_of, left_of};
ghost use Rattle.pipe_rows.specs.FormReading.{Reads};
ghost use Rattle.pipe_tree.specs.Tokens.{AreSlices, toks_of};
ghost use Rattle.pipe_tree.specs.TreeCopies.{boxed_copy, terminal_of};
ghost use Rattle.pipe_grammar.specs.WholeTexts.{ReadsAs, a_terminal, boxed_answer, terminal_with_offset};
ghost use Rattle.pipe_limits.specs.declared.TheConstants.{MOST_BYTES};

use crate::declarations::declarations;
use crate::streams::stream;
use pipe_lexer::Token;
use pipe_reader::TerminalForm;
use pipe_rows::{Reader, TokenClass, folding};
use pipe_tree::{ParseFault, TTerminal, Tree};
use std::alloc::Global;

/// `terminal = "fold" row "with" pat pat "->" row`: reads what follows `fold`.
fn fold(reader: &mut Reader) -> Result<Box<TTerminal>, ParseFault>
    ensures reads { ReadsFrom (terminal_form FoldForm) reader.old
        (boxed_copy terminal_of) result reader.new }
    ensures on { GoesOn reader.old reader.new }
{
    let parts = folding(reader)?;
    let terminal = TTerminal::Fold {
        seed: parts.seed,
        state: parts.state,
        pat: parts.pat,
        next: parts.next,
    };
    Ok(Box::new(reader.alloc, terminal)?)
}

/// `terminal = "fold" row "with" pat pat "->" row | "print"`: reads the terminal, by its keyword.
fn terminal(reader: &mut Reader) -> Result<Box<TTerminal>, ParseFault>
    ensures reads { let at = offset_or_end (end_of reader.old) (left_of reader.old) in
        ReadsFrom a_terminal reader.old (boxed_copy (terminal_with_offset at)) result reader.new }
    ensures on { GoesOn reader.old reader.new }
{
    match reader.class() {
        TokenClass::Terminal(TerminalForm::Fold) => {
            reader.advance();
            fold(reader)
        }
        TokenClass::Terminal(TerminalForm::Print) => {
            reader.advance();
            Ok(Box::new(reader.alloc, TTerminal::Print)?)
        }
        _ => Err(reader.syntax()),
    }
}

/// `program = { decl } stream "|" terminal`: reads all tokens that are left.
fn text(reader: &mut Reader) -> Result<Box<Tree>, ParseFault>
    ensures { ReadsAs (end_of reader.old) (left_of reader.old) (boxed_answer result) }
{
    let inputs = declarations(reader)?;
    let stream = stream(reader, 0)?;
    let terminal_at = reader.offset();
    let terminal = terminal(reader)?;
    if !reader.is_done() {
        return Err(reader.syntax());
    }
    let stream = Box::into_inner(stream);
    let terminal = Box::into_inner(terminal);
    let tree = Tree {
        inputs,
        stream,
        terminal_at,
        terminal,
    };
    Ok(Box::new(reader.alloc, tree)?)
}

/// `program = { decl } stream "|" terminal`: the tree of a text's tokens, or the offset where they stop
/// to be a sentence within the depths.
pub fn read_tokens(alloc: Global, src: &[u8], tokens: &[Token]) -> Result<Box<Tree>, ParseFault>
    requires short { length src.now ≤ MOST_BYTES }
    requires slices { AreSlices (length src.now) tokens.now }
    ensures { ReadsAs (length src.now) (toks_of src.now tokens.now) (boxed_answer result) }
{
    text(&mut Reader {
        alloc,
        src,
        left: tokens,
    })
}
