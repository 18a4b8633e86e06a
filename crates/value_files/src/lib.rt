//! The words that a file of values holds, or the first fault of it.
//!
//! A value file is items between blanks. A blank is a space, a tab, a carriage return or a line feed,
//! and an item is a longest run of other bytes: an optional `-` and one decimal digit or more, of
//! which any number may be zeros at the start. It stands for a whole number from -2^63 to 2^63 - 1,
//! and its word is the number modulo 2^64. A file has at most 4,194,304 items, and may have none.
//!
//! The crate depends on list_denotation for lists of words, on pipe_limits, on strm_num for words and
//! the refusal of memory, and on thiserror. `values` carries the promise: what it answers is what
//! `ReadsAs` of `specs/Files` says of the bytes, and nothing else is, unless memory is refused. `value`
//! reads one number, as `value_of` of `specs/Numbers` says, and `natural` one without a sign, below
//! 2^64. The laws say of `ReadsAs` alone that all bytes have such an answer, and only one.
#![tactic(auto)]

mod fault;
mod files;
mod items;
mod laws;
mod numbers;

pub use fault::{ItemFault, ValueFault};
pub use files::values;
pub use laws::{files_have_an_answer, files_have_one_answer};
pub use list_denotation::Words;
pub use numbers::{natural, value};
