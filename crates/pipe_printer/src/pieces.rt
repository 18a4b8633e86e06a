//! The smallest pieces of the text. Each is a token with what stands behind it.

ghost use Rattle.std.specs.Prelude.{◌≡◌, ◌++◌, ◌∷◌, [], codes, decimal, OnOk};
ghost use Rattle.pipe_tree.specs.Operators.{sign_of};
ghost use Rattle.pipe_printer.specs.Printing.{PutsTokens, run_text, label_tokens};
ghost use Rattle.pipe_tree.specs.Tokens.{Sym};
ghost use Rattle.pipe_tree.specs.TreeCopies.{label_of};

use pipe_lexer::BinOp;
use pipe_tree::Name;
use strm_num::{NoMemory, Word};
use text_pieces::{put, put_number};

/// Puts the text of a token and a blank.
pub fn put_token(out: &mut Vec<u8>, text: &[u8]) -> Result<(), NoMemory>
    ensures { OnOk result (out.new.items ≡ out.old.items ++ (text.now ++ codes " ")) }
{
    put(out, text)?;
    put(out, b" ")
}

/// Puts a number in decimal, without a leading zero, and a blank.
pub fn put_literal(out: &mut Vec<u8>, n: Word) -> Result<(), NoMemory>
    ensures { OnOk result (out.new.items ≡ out.old.items ++ (decimal n ++ codes " ")) }
{
    put_number(out, n)?;
    put(out, b" ")
}

/// Puts a name.
pub fn put_name(out: &mut Vec<u8>, name: &Name) -> Result<(), NoMemory>
    ensures { OnOk result (PutsTokens out.old out.new (label_tokens (label_of name.now))) }
{
    put_token(out, name.text.as_slice())
}

/// The text of an operator.
pub fn sign_text(op: BinOp) -> &'static [u8]
    ensures { result.now ++ codes " " ≡ run_text (Sym (sign_of op) ∷ []) }
{
    match op {
        BinOp::Add => b"+",
        BinOp::Sub => b"-",
        BinOp::Mul => b"*",
        BinOp::Div => b"/",
        BinOp::Rem => b"%",
        BinOp::Eq => b"==",
        BinOp::Ne => b"!=",
        BinOp::Lt => b"<",
        BinOp::Le => b"<=",
        BinOp::Gt => b">",
        BinOp::Ge => b">=",
    }
}
