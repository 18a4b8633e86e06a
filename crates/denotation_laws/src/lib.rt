//! What is known of values, rows and observations of pipelines, whatever the pipeline.
//!
//! It depends on list_denotation, whose definitions these laws speak of, on pipe_limits and on
//! strm_num. It has no code: each public function of `laws.rt` has an empty body, and its contract
//! is a law that the crates above call where they need it. Observations grow with their bound and
//! are never undefined; `specs/FarRows` says when one list of rows is as far as another, and each
//! stage and both terminals keep it; an expression without division has a value, and a value
//! depends on the bound words that are read alone; values and rows are words, and rows have the
//! width of `specs/Widths`; and `specs/StreamScopes` is what a typed stream's expressions read.
#![tactic(auto)]

mod laws;

pub use laws::{
    expressions_read_bound_words_alone, far_is_an_order, far_rows_is_an_order,
    joined_rows_depend_on_inner_lists, no_observation_is_stuck, observations_grow,
    ranges_and_counts_go_by_one, rows_have_their_width, stages_keep_far_rows,
    sums_grow_with_their_rows, typed_streams_read_their_scopes, undivided_expressions_have_values,
    values_are_words,
};
