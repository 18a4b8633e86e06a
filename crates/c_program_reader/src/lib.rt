//! The reader of C programs, one token at a time.
//!
//! `ProgramReader::take` makes the step over a token that c_automaton's `specs/Automaton` defines, and
//! `finish` gives the parts of the program at the end. The blocks that are open are kept on a stack and
//! not by recursion. Letting go of statements calls itself, as deep as they stand inside one another: what
//! keeps the program's stack is the limit on brackets, which c_subset_reader looks at before it takes a
//! token. It depends on c_automaton for what a step is, on c_phrase_reader for phrases, on c_words and
//! c_tokens for tokens, on exact_reader for stacks, and on loop_ir for programs.
#![tactic(auto)]

mod awaited;
mod blocks;
mod parameters;
mod reader;
mod statements;

pub use reader::{Parsed, ProgramReader};
