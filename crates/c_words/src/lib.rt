//! Keywords and names of the C subset, and what a reader sees in a token.
//!
//! It depends on c_tokens, whose `specs/Pieces` says what a token is. A reader sees a keyword, a name
//! with its number, another word, a number or a symbol; `specs/Words` says which. The laws say that it
//! is one of these, and one alone. `is_same` says whether a reader sees the same in two tokens.
#![tactic(auto)]

mod laws;
mod same;
mod token;

pub use laws::{tokens_are_seen, tokens_stand_for_one};
pub use same::is_same;
pub use token::{CToken, Keyword, Letter};
