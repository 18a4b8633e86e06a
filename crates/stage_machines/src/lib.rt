//! Stages over machines: parts that take the turns of a stage and of what is below it.
//!
//! It depends on stateful_core, whose acts and turns it speaks of; on act_moves, acts whose words have
//! other numbers; on machine_turns, the laws of machines over any states; and on denotation_laws and
//! list_denotation. `specs/MachineParts` is what a `Lin` is made of, and a `Tr` beside the term below
//! it. `specs/StageMachine` makes one of the parts of a stage and of those below it, be these a
//! source's or another stage's, whose turns begin with a row: states side by side, guards joined
//! (`specs/JoinedGuards`), the acts of both with a local word for each word of the row between. The
//! laws say that its turns are those of both, so that a stage over a machine is a machine, and a stage
//! over a stage is a stage, with the same rows; and that it is sound, and has no more words, leaves and
//! temporaries than both. `stage_machine` makes it.
#![tactic(auto)]

mod guards;
mod laws;
mod machine;
mod stages;

pub use guards::{is_always, join_guards};
pub use laws::{joined_parts_are_those_of_both, stages_join_what_is_below, turns_are_joined};
pub use machine::{Machine, Parts, boxed_machine};
pub use stages::stage_machine;
