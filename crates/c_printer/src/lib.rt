//! The C text of a loop program: a line for each part, indented by the braces that are open.
//!
//! It depends on loop_ir, whose `specs/Layout` defines the text, in C as ISO/IEC 9899:2011 has it, on
//! c_grammar, for what reads as which program, and on text_pieces, for the pieces that the text is
//! made of. `print_c` carries the promise: what it gives is the layout of the program, to the byte, and
//! reads as this program and no other.
#![tactic(auto)]

ghost use Rattle.std.specs.Prelude.{◌≡◌, ◌^◌, ◌≤◌, IfOk};
ghost use Rattle.loop_ir.specs.Layout.{layout};
ghost use Rattle.loop_ir.specs.Routines.{routine_of};
ghost use Rattle.loop_ir.specs.Statements.{Routine};
ghost use Rattle.c_grammar.specs.Reading.{Reads};

mod frame;
mod operands;
mod statements;

use c_grammar::{layouts_read_as_their_programs, texts_read_as_one_program};
use frame::{put_declarations, put_head};
use loop_ir::Prog;
use statements::put_block;
use std::alloc::Global;
use strm_num::NoMemory;
use text_pieces::put;

// The layout of a loop program.
fn program_text(alloc: Global, q: &Prog) -> Result<Vec<u8>, NoMemory>
    ensures { IfOk result (λ c. c.items ≡ layout (routine_of q.now)) }
{
    let mut out = Vec::new(alloc);
    put_head(&mut out, &q.params)?;
    put_declarations(&mut out, q.vars)?;
    put_block(&mut out, q.body.as_slice(), 2)?;
    put(&mut out, b"  return 0;\n}\n")?;
    Ok(out)
}

// What its type says of a number, as a fact.
fn has_32_bits(n: u32)
    ensures { n ≤ 2 ^ 32 }
{}

/// The C text of a loop program, as ASCII: the function `pipeline` after the line that includes
/// `pipeline.h`. Each line ends in a line feed. By the grammar of the C subset the text reads as the
/// program, and as no other.
///
/// The one error is `NoMemory`, where the text doesn't fit in memory.
pub fn print_c(alloc: Global, q: &Prog) -> Result<Vec<u8>, NoMemory>
    ensures layout { IfOk result (λ c. c.items ≡ layout (routine_of q.now)) }
    ensures reads { IfOk result (λ c. Reads c.items (routine_of q.now)) }
    ensures only { IfOk result (λ c. (other : Routine) → Reads c.items other
        → other ≡ routine_of q.now) }
{
    layouts_read_as_their_programs();
    texts_read_as_one_program();
    has_32_bits(q.vars);
    program_text(alloc, q)
}
