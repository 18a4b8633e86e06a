//! Expressions. The tree has each parenthesis, so none is added.

ghost use Rattle.std.specs.Prelude.{◌≡◌, ◌++◌, ◌∷◌, [], codes, OnOk};
ghost use Rattle.pipe_tree.specs.Grammar.{truth_key};
ghost use Rattle.pipe_printer.specs.Printing.{PutsTokens, run_text, formula_tokens};
ghost use Rattle.pipe_tree.specs.Tokens.{Key};
ghost use Rattle.pipe_tree.specs.Trees.{If};
ghost use Rattle.pipe_tree.specs.TreeCopies.{formula_of};

use crate::pieces::{put_literal, put_name, put_token, sign_text};
use pipe_tree::{TExpr, TNode};
use strm_num::NoMemory;
use text_pieces::put;

fn put_truth(out: &mut Vec<u8>, b: bool) -> Result<(), NoMemory>
    ensures { OnOk result (PutsTokens out.old out.new (Key (truth_key b) ∷ [])) }
{
    if b {
        put_token(out, b"true")
    } else {
        put_token(out, b"false")
    }
}

/// Puts a sign and the expression behind it.
#[cycle(expressions)]
fn put_signed(out: &mut Vec<u8>, sign: &[u8], a: &TExpr) -> Result<(), NoMemory>
    ensures { OnOk result (out.new.items
        ≡ out.old.items ++ (sign.now ++ codes " "
        ++ run_text (formula_tokens (formula_of a.now)))) }
{
    put_token(out, sign)?;
    put_expression(out, a)
}

/// Puts two expressions with a sign between them.
#[cycle(expressions)]
fn put_joined(out: &mut Vec<u8>, a: &TExpr, sign: &[u8], b: &TExpr) -> Result<(), NoMemory>
    ensures { OnOk result (out.new.items ≡ out.old.items
        ++ (run_text (formula_tokens (formula_of a.now)) ++ (sign.now ++ codes " ")
        ++ run_text (formula_tokens (formula_of b.now)))) }
{
    put_expression(out, a)?;
    put_signed(out, sign, b)
}

/// Puts a condition and the two expressions that are chosen by it.
#[cycle(expressions)]
fn put_choice(out: &mut Vec<u8>, c: &TExpr, a: &TExpr, b: &TExpr) -> Result<(), NoMemory>
    ensures { OnOk result (out.new.items ≡ out.old.items
        ++ run_text (formula_tokens
        (If 0 (formula_of c.now) (formula_of a.now) (formula_of b.now)))) }
{
    put_signed(out, b"if", c)?;
    put_signed(out, b"then", a)?;
    put_signed(out, b"else", b)
}

/// Puts an expression.
#[cycle(expressions)]
pub fn put_expression(out: &mut Vec<u8>, e: &TExpr) -> Result<(), NoMemory>
    ensures { OnOk result (PutsTokens out.old out.new (formula_tokens (formula_of e.now))) }
{
    match &e.node {
        TNode::Num(w) => put_literal(out, *w),
        TNode::Truth(b) => put_truth(out, *b),
        TNode::Name(text) => put_token(out, text.as_slice()),
        TNode::Len(name) => {
            put(out, b"len ( ")?;
            put_name(out, name)?;
            put_token(out, b")")
        }
        TNode::Neg(a) => put_signed(out, b"-", a),
        TNode::Not(a) => put_signed(out, b"!", a),
        TNode::Paren(a) => {
            put_signed(out, b"(", a)?;
            put_token(out, b")")
        }
        TNode::Bin(op, _, a, b) => put_joined(out, a, sign_text(*op), b),
        TNode::And(_, a, b) => put_joined(out, a, b"&&", b),
        TNode::Or(_, a, b) => put_joined(out, a, b"||", b),
        TNode::If(c, a, b) => put_choice(out, c, a, b),
    }
}
