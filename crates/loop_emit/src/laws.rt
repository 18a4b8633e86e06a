//! What the crates below promise of their definitions.

ghost use Rattle.loop_emit.specs.Laws.{Laws};

use dead_code::{dead_code_does_nothing, live_programs_are_no_larger};
use denotation_laws::{
    expressions_read_bound_words_alone, far_is_an_order, no_observation_is_stuck,
    stages_keep_far_rows, typed_streams_read_their_scopes, undivided_expressions_have_values,
    values_are_words,
};
use expr_lower::{
    expressions_are_lowered, expressions_name_their_leaves, scopes_hold_expressions,
    temporaries_are_few,
};
use list_denotation::typed_programs_keep_limits;
use loop_ir::runs_grow;
use turn_blocks::{rows_are_taken, turns_are_lowered, turns_name_declared_variables};

/// The laws that the emission rests on.
pub fn laws_below()
    ensures { Laws }
{
    typed_programs_keep_limits();
    typed_streams_read_their_scopes();
    expressions_read_bound_words_alone();
    undivided_expressions_have_values();
    values_are_words();
    far_is_an_order();
    stages_keep_far_rows();
    runs_grow();
    temporaries_are_few();
    expressions_are_lowered();
    scopes_hold_expressions();
    expressions_name_their_leaves();
    turns_are_lowered();
    turns_name_declared_variables();
    rows_are_taken();
    no_observation_is_stuck();
    dead_code_does_nothing();
    live_programs_are_no_larger();
}
