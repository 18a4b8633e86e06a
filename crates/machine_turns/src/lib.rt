//! Machines in terms of machines, over states of any types.
//!
//! It depends on stateful_core, whose turns it speaks of, and on denotation_laws and
//! list_denotation. `specs/MachineRuns` is what a machine reaches in so many turns; `specs/StageTurns`,
//! `specs/NestTurns` and `specs/ZipTurns` make one machine of a machine and a stage over its rows, of
//! an outer machine and an inner one for each of its rows, and of two side by side. The laws say of
//! each that its rows are no further than those of its parts, and that it reaches them in the turns
//! of its parts together. There is no code.
#![tactic(auto)]

mod laws;

pub use laws::{
    inner_machines_run_within_outer_ones, machines_reach_their_rows, machines_run_side_by_side,
    stages_run_over_machines,
};
