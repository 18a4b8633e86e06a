//! A law of the definitions. This function does nothing: its contract is the law, which specs/Promises tells.

ghost use Rattle.stateful_core.specs.Promises.{CoreRowsHaveTheirWidth};
ghost use Rattle.zip_linearise.specs.Laws.{Laws};
ghost use Rattle.zip_linearise.specs.Promises.{MachinesGoNoFurtherThanTerms, MachinesGoAsFarAsTerms};

use denotation_laws::{
    expressions_read_bound_words_alone, far_rows_is_an_order, stages_keep_far_rows,
};
use machine_turns::{
    inner_machines_run_within_outer_ones, machines_reach_their_rows, machines_run_side_by_side,
    stages_run_over_machines,
};
use stage_machines::{joined_parts_are_those_of_both, stages_join_what_is_below};
use stateful_core::core_rows_have_their_width;

// What the crates below promise of their definitions.
pub(crate) fn laws_below()
    ensures { Laws }
{
    far_rows_is_an_order();
    stages_keep_far_rows();
    machines_reach_their_rows();
    stages_run_over_machines();
    inner_machines_run_within_outer_ones();
    machines_run_side_by_side();
    stages_join_what_is_below();
    joined_parts_are_those_of_both();
    core_rows_have_their_width();
    expressions_read_bound_words_alone();
}

pub fn machines_go_as_far_as_terms()
    ensures no_further { MachinesGoNoFurtherThanTerms }
    ensures as_far { MachinesGoAsFarAsTerms }
    ensures widths { CoreRowsHaveTheirWidth }
{
    laws_below();
}
