//! Exact readers, for any language and any kind of token.
//!
//! A reader takes one token at a time and makes a test of each state that it comes to. It is exact if it
//! gives a tree only for a sentence within the depths, stops with a syntax fault at the first token with
//! which no sentence goes on, and with a depth fault at the first with which only sentences beyond the
//! depths go on: the property that parsers of viable prefixes have. `specs/Exactness` says so, and the
//! proofs show it of any reader whose states can say which tokens complete them. `Stack` holds the forms
//! that such a reader has open. It depends on strm_num for the refusal of memory.
#![tactic(auto)]

mod stack;

pub use stack::Stack;
