//! Rows and patterns, in braces where the tree has them.

ghost use Rattle.std.specs.Prelude.{◌≡◌, ◌++◌, ◌∷◌, [], map, OnOk};
ghost use Rattle.pipe_printer.specs.Printing.{PutsTokens, formula_tokens, label_tokens, others_tokens, parts_tokens, row_tokens, pattern_tokens};
ghost use Rattle.pipe_tree.specs.TreeCopies.{formula_of, label_of, row_of, pattern_of};

use crate::expressions::put_expression;
use crate::pieces::{put_name, put_token};
use pipe_tree::{Name, TExpr, TPat, TRow};
use strm_num::NoMemory;

/// Puts a comma and an expression.
fn put_other_expression(out: &mut Vec<u8>, e: &TExpr) -> Result<(), NoMemory>
    ensures { OnOk result (PutsTokens out.old out.new (others_tokens formula_tokens
        (formula_of e.now ∷ []))) }
{
    put_token(out, b",")?;
    put_expression(out, e)
}

/// Puts expressions, each after a comma.
fn put_other_expressions(out: &mut Vec<u8>, parts: &[TExpr]) -> Result<(), NoMemory>
    ensures { OnOk result (PutsTokens out.old out.new (others_tokens formula_tokens
        (map formula_of parts.now))) }
{
    for e in parts {
        put_other_expression(out, e)?;
    }
    Ok(())
}

/// Puts expressions with commas between them.
fn put_expressions(out: &mut Vec<u8>, parts: &[TExpr]) -> Result<(), NoMemory>
    ensures { OnOk result (PutsTokens out.old out.new (parts_tokens formula_tokens
        (map formula_of parts.now))) }
{
    match parts {
        [] => Ok(()),
        [first, others @ ..] => {
            put_expression(out, first)?;
            put_other_expressions(out, others)
        }
    }
}

/// Puts a row.
pub fn put_row(out: &mut Vec<u8>, row: &TRow) -> Result<(), NoMemory>
    ensures { OnOk result (PutsTokens out.old out.new (row_tokens (row_of row.now))) }
{
    if !row.braces {
        return put_expressions(out, row.parts.as_slice());
    }
    put_token(out, b"{")?;
    put_expressions(out, row.parts.as_slice())?;
    put_token(out, b"}")
}

/// Puts a comma and a name.
fn put_other_name(out: &mut Vec<u8>, name: &Name) -> Result<(), NoMemory>
    ensures { OnOk result (PutsTokens out.old out.new (others_tokens label_tokens
        (label_of name.now ∷ []))) }
{
    put_token(out, b",")?;
    put_name(out, name)
}

/// Puts names, each after a comma.
fn put_other_names(out: &mut Vec<u8>, names: &[Name]) -> Result<(), NoMemory>
    ensures { OnOk result (PutsTokens out.old out.new (others_tokens label_tokens
        (map label_of names.now))) }
{
    for name in names {
        put_other_name(out, name)?;
    }
    Ok(())
}

/// Puts names with commas between them.
fn put_names(out: &mut Vec<u8>, names: &[Name]) -> Result<(), NoMemory>
    ensures { OnOk result (PutsTokens out.old out.new (parts_tokens label_tokens
        (map label_of names.now))) }
{
    match names {
        [] => Ok(()),
        [first, others @ ..] => {
            put_name(out, first)?;
            put_other_names(out, others)
        }
    }
}

/// Puts a pattern.
pub fn put_pattern(out: &mut Vec<u8>, pattern: &TPat) -> Result<(), NoMemory>
    ensures { OnOk result (PutsTokens out.old out.new (pattern_tokens (pattern_of pattern.now))) }
{
    if !pattern.braces {
        return put_names(out, pattern.names.as_slice());
    }
    put_token(out, b"{")?;
    put_names(out, pattern.names.as_slice())?;
    put_token(out, b"}")
}
