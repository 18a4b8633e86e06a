//! The reader of operands and tests in the C subset, one token at a time.
//!
//! `Reading::reads_on` makes the step over a token that c_automaton's `specs/Phrases` defines. The forms
//! that are open are kept on a stack and not by recursion. Letting go of an operand or a test calls
//! itself, as deep as they stand inside one another: what keeps the program's stack is the limit on
//! brackets, which c_subset_reader looks at before it takes a token. It depends on c_automaton for what a
//! step is, on c_words and c_tokens for tokens, on exact_reader for stacks, and on loop_ir for operands
//! and tests.
#![tactic(auto)]

mod phrase;
mod reading;
mod tables;

pub use phrase::Phrase;
pub use reading::{Frame, Reading};
