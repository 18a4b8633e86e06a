//! The text that a run writes.
//!
//! A run writes its events one behind another, as ASCII. An `Emit` is its word as a signed decimal: a
//! word below 2^63 in digits without leading zeros, any other word w as `-` and the digits of
//! 2^64 - w. A blank stands before it where the event before it is an `Emit` too, so that a row is
//! numbers with a blank between each two. An `EndRow` is a line feed.
//!
//! It depends on list_denotation, whose `Event` it speaks of, on strm_num for words, and on text_pieces.
//! `specs/Texts` is that rule, and `print_events` gives the text of a list of events. The laws say that a
//! text tells its events, where these hold words, and that what is written of some events stays at the
//! front when more are written.
#![tactic(auto)]

mod laws;
mod printing;

pub use laws::{event_texts_begin_with_those_of_prefixes, event_texts_differ};
pub use printing::print_events;
