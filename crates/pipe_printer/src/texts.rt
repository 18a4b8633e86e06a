//! Whole texts: the declarations, the stream and the terminal.

ghost use Rattle.std.specs.Prelude.{◌≡◌, ◌-◌, ◌++◌, ◌∷◌, [], codes, length, map, take, IfOk, OnOk};
ghost use Rattle.pipe_tree.specs.Grammar.{kind_key};
ghost use Rattle.pipe_printer.specs.WithoutOffsets.{IsPrintable, ReadsBack};
ghost use Rattle.pipe_printer.specs.Printing.{PutsTokens, terminal_tokens, declaration_tokens, declarations_tokens, tree_tokens, spaced_text};
ghost use Rattle.pipe_tree.specs.Tokens.{Key};
ghost use Rattle.pipe_tree.specs.TreeCopies.{terminal_of, declaration_of, text_of};

use crate::pieces::{put_name, put_token};
use crate::streams::{put_folding, put_stream};
use pipe_lexer::InputKind;
use pipe_tree::{Decl, TTerminal, Tree};
use std::alloc::Global;
use strm_num::NoMemory;
use text_pieces::put;

fn put_kind(out: &mut Vec<u8>, kind: InputKind) -> Result<(), NoMemory>
    ensures { OnOk result (PutsTokens out.old out.new (Key (kind_key kind) ∷ [])) }
{
    match kind {
        InputKind::Array => put_token(out, b"array"),
        InputKind::Int => put_token(out, b"int"),
    }
}

/// Puts a declaration, and a line feed behind its semicolon.
fn put_declaration(out: &mut Vec<u8>, declaration: &Decl) -> Result<(), NoMemory>
    ensures { OnOk result (PutsTokens out.old out.new (declaration_tokens
        (declaration_of declaration.now))) }
{
    put_token(out, b"input")?;
    put_name(out, &declaration.name)?;
    put_token(out, b":")?;
    put_kind(out, declaration.kind)?;
    put(out, b";\n")
}

fn put_declarations(out: &mut Vec<u8>, inputs: &[Decl]) -> Result<(), NoMemory>
    ensures { OnOk result (PutsTokens out.old out.new (declarations_tokens
        (map declaration_of inputs.now))) }
{
    for declaration in inputs {
        put_declaration(out, declaration)?;
    }
    Ok(())
}

fn put_terminal(out: &mut Vec<u8>, terminal: &TTerminal) -> Result<(), NoMemory>
    ensures { OnOk result (PutsTokens out.old out.new (terminal_tokens
        (terminal_of terminal.now))) }
{
    match terminal {
        TTerminal::Fold {
            seed,
            state,
            pat,
            next,
        } => {
            put_token(out, b"fold")?;
            put_folding(out, seed, state, pat, next)
        }
        TTerminal::Print => put_token(out, b"print"),
    }
}

/// Puts all tokens, each with what stands behind it where another follows.
fn put_tree(out: &mut Vec<u8>, t: &Tree) -> Result<(), NoMemory>
    ensures { OnOk result (PutsTokens out.old out.new (tree_tokens (text_of t.now))) }
{
    put_declarations(out, t.inputs.as_slice())?;
    put_stream(out, &t.stream)?;
    put_token(out, b"|")?;
    put_terminal(out, &t.terminal)
}

/// Puts a line feed in place of the last byte.
fn put_end(out: &mut Vec<u8>) -> Result<(), NoMemory>
    ensures { OnOk result (out.new.items ≡ take (length out.old.items - 1) out.old.items
        ++ codes "\n") }
{
    out.pop();
    put(out, b"\n")
}

/// The tree's tokens in order, each as it is written in the language and a number in decimal
/// without leading zeros. A blank stands between two tokens, but a line feed behind each `;` and
/// behind the last token. Offsets make no difference.
///
/// If some text has `t` as its tree, but for offsets, then the printed text has it too, within the same
/// limits: the printed text of a tree that was read reads as the same tree, but for offsets. It may be
/// longer than that text was, and than the 65,536 bytes that `tokens` takes.
///
/// The one error is `NoMemory`, where the text doesn't fit in memory.
#[tactic(auto, using(crate::proofs::PrintedTexts::ends_in_feed, crate::proofs::ReadBack::reads_back))]
pub fn print_tree(alloc: Global, t: &Tree) -> Result<Vec<u8>, NoMemory>
    ensures text { IfOk result (λ out. out.items ≡ spaced_text (tree_tokens (text_of t.now))) }
    ensures reads_back { IfOk result (λ out. IsPrintable (text_of t.now)
        → ReadsBack out.items (text_of t.now)) }
{
    let mut out = Vec::new(alloc);
    put_tree(&mut out, t)?;
    put_end(&mut out)?;
    Ok(out)
}
