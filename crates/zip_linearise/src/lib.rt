//! Machines of core terms: one loop for what may be many.
//!
//! It depends on stateful_core, whose core terms it takes, on act_moves, expressions and acts whose
//! words have other numbers, on machine_turns, the laws of machines that are made of machines, on
//! stage_machines, a stage and the machine below it in one, and on denotation_laws and
//! list_denotation. A machine is the content of one `Lin` that may skip. `specs/LinearMachine` is the
//! machine of a term, on plain copies: a `Lin` is its own; a `Tr` over a machine is joined to it; the
//! machine of a `Nest` or a `Zip` takes turns of either machine, and holds the row of the first one
//! while the other is due (`specs/HeldRows`, `specs/NestMachine`, `specs/ZipMachine`). The words of
//! each are renumbered so that those of the other have room. `linearise` carries the promise,
//! `specs/MachinePromise`: the rows of the machine and those of the term are as far as one another, in
//! as many steps as the bound, and as the term's work.
#![tactic(auto)]

mod guards;
mod holding;
mod laws;
mod linearising;
mod nests;
mod zips;

pub use laws::machines_go_as_far_as_terms;
pub use linearising::linearise;
pub use stage_machines::Machine;
