//! The passes from a pipeline to its loop program and to its C text, in their order, each with its promise.

ghost use Rattle.std.specs.Prelude.{IfOk};
ghost use Rattle.headline.specs.Headline.{IsEmitted};
ghost use Rattle.list_denotation.specs.Pipelines.{pipeline_of};
ghost use Rattle.loop_ir.specs.Routines.{routine_of};
ghost use Rattle.job_steps.specs.Works.{IsTextOf};

use c_printer::print_c;
use list_denotation::Program;
use loop_emit::emit;
use loop_ir::Prog;
use stateful_core::core_of;
use std::alloc::Global;
use strm_num::NoMemory;

/// The loop program of a pipeline. The one error is `NoMemory`, where memory is refused.
pub fn loop_program(alloc: Global, program: &Program) -> Result<Box<Prog>, NoMemory>
    ensures { IfOk result (λ q. IsEmitted (pipeline_of program.now) (routine_of q.value)) }
{
    // `IsCoreOf`: a core term with the lists of the stream, and their work
    let core = Box::new(alloc, core_of(alloc, program)?)?;
    // `IsEmitted`: loops that go no further than the lists, and as far as they do
    Ok(Box::new(alloc, emit(alloc, program, &core)?)?)
}

/// The C text of a pipeline. The one error is `NoMemory`.
pub fn c_text(alloc: Global, program: &Program) -> Result<Vec<u8>, NoMemory>
    ensures { IfOk result (λ c. IsTextOf (pipeline_of program.now) c.items) }
{
    // the loop program, and its layout as C (`reads` and `only` of `print_c`)
    let routine = loop_program(alloc, program)?;
    print_c(alloc, &routine)
}
