//! Operands and tests. Every operation stands in parentheses, so that no precedence is needed.

ghost use Rattle.std.specs.Prelude.{◌≡◌, ◌++◌, codes, OnOk};
ghost use Rattle.loop_ir.specs.StatementCopies.{operand_of, test_of};
ghost use Rattle.loop_ir.specs.Layout.{operator_text, operand_text, test_text};

use loop_ir::{T, W, WOp};
use strm_num::NoMemory;
use text_pieces::{put, put_number, put_numbered};

fn put_operator(out: &mut Vec<u8>, op: WOp) -> Result<(), NoMemory>
    ensures { OnOk result (out.new.items ≡ out.old.items ++ operator_text op) }
{
    match op {
        WOp::Add => put(out, b" + "),
        WOp::Sub => put(out, b" - "),
        WOp::Mul => put(out, b" * "),
        WOp::Div => put(out, b" / "),
        WOp::Rem => put(out, b" % "),
        WOp::Xor => put(out, b" ^ "),
    }
}

/// Puts an operand.
pub fn put_operand(out: &mut Vec<u8>, w: &W) -> Result<(), NoMemory>
    ensures { OnOk result (out.new.items ≡ out.old.items ++ operand_text (operand_of w.now)) }
{
    match w {
        W::Const(n) => {
            put_number(out, *n)?;
            put(out, b"ULL")
        }
        W::Var(v) => put_numbered(out, b"v", u64::from(*v)),
        W::Len(a) => put_numbered(out, b"n", u64::from(*a)),
        W::Int(k) => put_numbered(out, b"i", u64::from(*k)),
        W::Bin(op, a, b) => {
            put(out, b"(")?;
            put_operand(out, a)?;
            put_operator(out, *op)?;
            put_operand(out, b)?;
            put(out, b")")
        }
    }
}

/// Puts two operands with the sign of a comparison between them.
fn put_compared(out: &mut Vec<u8>, a: &W, sign: &[u8], b: &W) -> Result<(), NoMemory>
    ensures { OnOk result (out.new.items ≡ out.old.items
        ++ (codes "(" ++ operand_text (operand_of a.now) ++ sign.now
        ++ operand_text (operand_of b.now) ++ codes ")")) }
{
    put(out, b"(")?;
    put_operand(out, a)?;
    put(out, sign)?;
    put_operand(out, b)?;
    put(out, b")")
}

/// Puts a test.
pub fn put_test(out: &mut Vec<u8>, t: &T) -> Result<(), NoMemory>
    ensures { OnOk result (out.new.items ≡ out.old.items ++ test_text (test_of t.now)) }
{
    match t {
        T::Less(a, b) => put_compared(out, a, b" < ", b),
        T::Same(a, b) => put_compared(out, a, b" == ", b),
        T::Both(a, b) => {
            put(out, b"(")?;
            put_test(out, a)?;
            put(out, b" && ")?;
            put_test(out, b)?;
            put(out, b")")
        }
        T::Either(a, b) => {
            put(out, b"(")?;
            put_test(out, a)?;
            put(out, b" || ")?;
            put_test(out, b)?;
            put(out, b")")
        }
        T::Not(a) => {
            put(out, b"(!")?;
            put_test(out, a)?;
            put(out, b")")
        }
    }
}
