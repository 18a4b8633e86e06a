//! Statements, each on lines of its own.

ghost use Rattle.std.specs.Prelude.{◌≡◌, ◌≤◌, ◌++◌, codes, OnOk};
ghost use Rattle.loop_ir.specs.StatementCopies.{operand_of, test_of, statement_of, block_of};
ghost use Rattle.loop_ir.specs.Layout.{block_text, choice_text, deeper, guard_text, indent};
ghost use Rattle.loop_ir.specs.Layout.{loop_head_text, read_text, return_text, set_text};
ghost use Rattle.loop_ir.specs.Layout.{statement_text};

use crate::operands::{put_operand, put_test};
use loop_ir::{Stmt, T, Verdict, W};
use strm_num::NoMemory;
use text_pieces::{MOST_BLANKS, put, put_blanks, put_numbered};

/// The blanks of a line inside one more brace, which are never more than 32.
fn inside(blanks: usize) -> usize
    requires { blanks ≤ MOST_BLANKS }
    ensures { result ≡ deeper blanks }
{
    (blanks + 2).min(MOST_BLANKS)
}

fn put_set(out: &mut Vec<u8>, v: u32, w: &W) -> Result<(), NoMemory>
    ensures { OnOk result (out.new.items ≡ out.old.items ++ set_text v (operand_of w.now)) }
{
    put_numbered(out, b"v", u64::from(v))?;
    put(out, b" = ")?;
    put_operand(out, w)?;
    put(out, b";\n")
}

fn put_read(out: &mut Vec<u8>, v: u32, a: u32, w: &W) -> Result<(), NoMemory>
    ensures { OnOk result (out.new.items ≡ out.old.items ++ read_text v a (operand_of w.now)) }
{
    put_numbered(out, b"v", u64::from(v))?;
    put_numbered(out, b" = a", u64::from(a))?;
    put(out, b"[")?;
    put_operand(out, w)?;
    put(out, b"];\n")
}

fn put_return(out: &mut Vec<u8>, v: Verdict) -> Result<(), NoMemory>
    ensures { OnOk result (out.new.items ≡ out.old.items ++ return_text v) }
{
    match v {
        Verdict::Done => put(out, b"return 0;\n"),
        Verdict::Trap => put(out, b"return 1;\n"),
    }
}

/// Puts the line that begins a choice.
fn put_choice(out: &mut Vec<u8>, t: &T) -> Result<(), NoMemory>
    ensures { OnOk result (out.new.items ≡ out.old.items ++ choice_text (test_of t.now)) }
{
    put(out, b"if ")?;
    put_test(out, t)?;
    put(out, b" {\n")
}

/// Puts the line between the two arms of a choice.
fn put_else(out: &mut Vec<u8>, blanks: usize) -> Result<(), NoMemory>
    requires { blanks ≤ MOST_BLANKS }
    ensures { OnOk result (out.new.items ≡ out.old.items ++ (indent blanks ++ codes "} else {\n")) }
{
    put_blanks(out, blanks)?;
    put(out, b"} else {\n")
}

/// Puts the line that ends a loop or a choice.
fn put_end(out: &mut Vec<u8>, blanks: usize) -> Result<(), NoMemory>
    requires { blanks ≤ MOST_BLANKS }
    ensures { OnOk result (out.new.items ≡ out.old.items ++ (indent blanks ++ codes "}\n")) }
{
    put_blanks(out, blanks)?;
    put(out, b"}\n")
}

/// Puts the line that ends a loop where its test fails.
fn put_guard(out: &mut Vec<u8>, t: &T) -> Result<(), NoMemory>
    ensures { OnOk result (out.new.items ≡ out.old.items ++ guard_text (test_of t.now)) }
{
    put(out, b"if ")?;
    put_test(out, t)?;
    put(out, b" { } else { break; }\n")
}

/// Puts a loop's first two lines.
fn put_loop_head(out: &mut Vec<u8>, t: &T, blanks: usize) -> Result<(), NoMemory>
    requires { blanks ≤ MOST_BLANKS }
    ensures { OnOk result (out.new.items ≡ out.old.items ++ loop_head_text (test_of t.now) blanks) }
{
    put(out, b"while (1) {\n")?;
    put_blanks(out, inside(blanks))?;
    put_guard(out, t)
}

#[cycle(statements)]
fn put_statement(out: &mut Vec<u8>, s: &Stmt, blanks: usize) -> Result<(), NoMemory>
    requires { blanks ≤ MOST_BLANKS }
    ensures { OnOk result
        (out.new.items ≡ out.old.items ++ statement_text (statement_of s.now) blanks) }
{
    put_blanks(out, blanks)?;
    match s {
        Stmt::Set(v, w) => put_set(out, *v, w),
        Stmt::Read(v, a, w) => put_read(out, *v, *a, w),
        Stmt::If(t, a, b) => {
            put_choice(out, t)?;
            put_block(out, a.as_slice(), inside(blanks))?;
            put_else(out, blanks)?;
            put_block(out, b.as_slice(), inside(blanks))?;
            put_end(out, blanks)
        }
        Stmt::Loop(t, body) => {
            put_loop_head(out, t, blanks)?;
            put_block(out, body.as_slice(), inside(blanks))?;
            put_end(out, blanks)
        }
        Stmt::Emit(w) => {
            put(out, b"EMIT(")?;
            put_operand(out, w)?;
            put(out, b");\n")
        }
        Stmt::EndRow => put(out, b"ENDROW();\n"),
        Stmt::Ret(v) => put_return(out, *v),
    }
}

/// Puts statements one after the other, each line of theirs after at least so many blanks.
#[cycle(statements)]
pub fn put_block(out: &mut Vec<u8>, body: &[Stmt], blanks: usize) -> Result<(), NoMemory>
    requires { blanks ≤ MOST_BLANKS }
    ensures { OnOk result (out.new.items ≡ out.old.items ++ block_text (block_of body.now) blanks) }
{
    for s in body {
        put_statement(out, s, blanks)?;
    }
    Ok(())
}
