//! The code that appends the statements of a turn.
//!
//! It depends on turn_blocks, whose definition `acts_piece` says which statements these are, on
//! word_uses for the tests that the definition names, and on row_emit and expr_lower for the parts.
//! `put_turn` carries the promise: it appends exactly the statements of the acts, and of what is
//! done with the row behind them, and says the first variable that is free then; the words of the
//! scope are as they were.
#![tactic(auto)]

mod turns;

pub use turns::{Turn, put_turn};
