//! The counts of a tree, and the first of them that is past its limit.
//!
//! `check_counts` carries the promise: no fault exactly where there are at most 16 inputs, 128 operators
//! and 8,192 nodes, and else the fault of the first count that is past its limit, at the offset of the
//! first that is one too many. It depends on pipe_tree for trees and on pipe_limits.
#![tactic(auto)]

mod counts;
mod limits;
mod nodes;
mod ops;

pub use limits::check_counts;
