//! Tests from texts to kinds and from C texts to programs: the tokens of a text, its tree and what is
//! printed of it, the kinds of its parts with its counts, the layout of a C text's program, and the reason
//! and the offset of each refusal.
//!
//! It depends on the crates that it tests, and nothing depends on it. It has nothing but tests: what no
//! clause says, that the definitions mean what the language's page says, by cases worked out by hand.
#![tactic(auto)]

#[cfg(test)]
mod answers;
#[cfg(test)]
mod c_texts;
#[cfg(test)]
mod printed_trees;
#[cfg(test)]
mod tokens;
