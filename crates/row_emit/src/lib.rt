//! Words that are set to the values of a row, and what is done with the row of a turn.
//!
//! It depends on turn_blocks, whose definitions say which statements these are, and on expr_lower.
//! `set_words` appends the statements that set words of a scope, each by way of a scratch variable
//! only where a value that is needed later would be lost. `put_tail` appends what a terminal does
//! with a row, and `put_stop` what ends the run where the stream stops. Each contract is that the
//! statements of the definition were appended, and says the first variable that is free then.
#![tactic(auto)]

mod conditions;
mod laws;
mod state_words;
mod tails;

pub use conditions::put_choice;
pub use laws::set_words_take_later_variables;
pub use state_words::{put_words, set_words};
pub use tails::{Stop, Tail, put_row, put_stop, put_tail};
