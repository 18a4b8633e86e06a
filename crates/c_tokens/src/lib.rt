//! Tokens of the C subset.
//!
//! It depends on strm_num alone. `specs/Pieces` says what a C text is cut into, by cases: blanks,
//! comments, and tokens, each as long as it can be; `specs/Cutting` which tokens a text has, each with
//! its offset in bytes. The law says that these are one for each text.
#![tactic(auto)]

mod laws;
mod symbol;

pub use laws::texts_have_one_cutting;
pub use symbol::Symbol;
