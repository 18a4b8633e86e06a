//! The variables of a loop program that the words of a scope stand in.
//!
//! It depends on loop_ir and strm_num. A pipeline's scope is a list of bound words, and `Slots` has
//! the variable of each of them. Some variables are temporaries of expressions, and no bound word
//! stands in one: what each `Slots` keeps is its fact `laid_out`, by `specs/Layouts`. The clause
//! `fresh` of `Slots::bind` carries the promise of this crate: the variables that it gives differ
//! from one another, from those of all words bound before, and from the temporaries. The law
//! `words_are_apart` says what follows for any bound words that are chosen, and fresh variables.
#![tactic(auto)]

mod laws;
mod slots;

pub use laws::words_are_apart;
pub use slots::Slots;
