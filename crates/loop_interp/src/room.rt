//! The room that a run works in.

ghost use Rattle.std.specs.Prelude.{◌≡◌, IfOk, replicate};

pub use crate::machine::Registers;
use loop_ir::Prog;
use std::alloc::Global;
use strm_num::{List, NoMemory};

/// Room for a program: its variables, all 0, and nothing pending.
pub fn registers(alloc: Global, q: &Prog) -> Result<Registers, NoMemory>
    ensures { IfOk result (λ r. (r.words ≡ replicate q.now.vars 0) × (r.fill ≡ 0)) }
{
    let mut words = List::new(alloc);
    for _ in 0..q.vars {
        words.push(0)?;
    }
    Ok(Registers {
        words,
        pending: [0; 4096],
        fill: 0,
    })
}
