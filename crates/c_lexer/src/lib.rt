//! Cuts a C text into tokens.
//!
//! It depends on c_tokens, whose `specs/Cutting` says which tokens a text has, on c_words for what a
//! reader sees in a token, and on c_faults for the first place where no piece begins. `first_fault`
//! says whether a text has tokens, and `Cursor` takes them off, one after another; both carry the promise.
//! Each goes over a text once: no comment without an end is looked for twice.
#![tactic(auto)]

mod characters;
mod comments;
mod cursor;
mod faults;
mod numbers;
mod piece;
mod scanning;
mod symbols;
mod words;

pub use cursor::{Cursor, Found};
pub use faults::first_fault;
