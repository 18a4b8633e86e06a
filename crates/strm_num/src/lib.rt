//! Words, the refusal of memory, and the list that all named list types are.
//!
//! It depends on nothing but std. The crates above use four promises of it: a list is what its
//! contracts say on every call, also after a refused `push`; `NoMemory` is the one error of a
//! call that allocates; `specs/Words` is the arithmetic of words that definitions cite; and
//! `div_signed`, `rem_signed` and `less_signed` give the quotient, the remainder and the order of
//! signed values as `specs/Words` defines them, with none for a zero divisor alone. The laws say of
//! the definitions alone what signed division is of magnitudes, and signed order of flipped signs.
#![tactic(auto)]

mod laws;
mod list;
mod memory;
mod signed_texts;
mod signed_words;

pub use laws::{signed_division_divides_magnitudes, signed_order_flips_sign_bits};
pub use list::List;
pub use memory::NoMemory;
pub use signed_texts::write_signed;
pub use signed_words::{SIGN, div_signed, is_negative, less_signed, magnitude, rem_signed};

/// A number from 0 to 2^64 - 1. Its signed value is itself below 2^63, else itself minus 2^64.
pub type Word = u64;
