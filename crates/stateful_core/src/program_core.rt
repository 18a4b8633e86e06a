//! The core of a program.

ghost use Rattle.std.specs.Prelude.{IfOk};
ghost use Rattle.list_denotation.specs.Pipelines.{pipeline_of};
ghost use Rattle.stateful_core.specs.CoreCopies.{core_term_of};
ghost use Rattle.stateful_core.specs.CorePromise.{IsCoreOf};
ghost use Rattle.stateful_core.specs.Laws.{Laws};

use crate::core_term::Core;
use crate::stream_core::core_at;
use denotation_laws::{
    expressions_read_bound_words_alone, joined_rows_depend_on_inner_lists,
    ranges_and_counts_go_by_one, rows_have_their_width, typed_streams_read_their_scopes,
    undivided_expressions_have_values, values_are_words,
};
use list_denotation::{Program, typed_programs_keep_limits};
use std::alloc::Global;
use strm_num::NoMemory;

// What the crates below promise of their definitions.
fn laws_below()
    ensures { Laws }
{
    typed_programs_keep_limits();
    typed_streams_read_their_scopes();
    expressions_read_bound_words_alone();
    undivided_expressions_have_values();
    values_are_words();
    rows_have_their_width();
    joined_rows_depend_on_inner_lists();
    ranges_and_counts_go_by_one();
}

/// The core of a program's stream. It is well formed and stands in the scope of no words, has the
/// lists of the stream at each input that fits and each bound, and its work is that of the stream.
/// The one error is `NoMemory`.
pub fn core_of(alloc: Global, p: &Program) -> Result<Core, NoMemory>
    ensures { IfOk result (λ c. IsCoreOf (pipeline_of p.now) (core_term_of c)) }
{
    laws_below();
    Ok(Box::into_inner(core_at(alloc, &p.stream, 0)?))
}
