//! What the words of a turn's acts are used for, and how many temporaries they need.
//!
//! It depends on turn_blocks, whose definitions say which words acts read and set, which updates may
//! wait for the acts behind them, and what a new local word comes to. Each function here is the
//! test that its definition names: its contract is that equation. None takes memory.
#![tactic(auto)]

mod new_words;
mod reads;
mod temporaries;
mod waiting;
mod writes;

pub use new_words::{LetUse, let_use};
pub use reads::{are_unread, is_unread, row_is_unread};
pub use temporaries::{acts_temps, row_temps};
pub use waiting::{Place, may_wait};
pub use writes::{never_go_on, width};
