//! What a run works on.

use loop_ir::Words;

/// The room of a run: a word for each variable, and text that isn't yet put to the sink.
#[derive(Drop)]
pub struct Registers {
    /// The variables.
    pub words: Words,
    /// Text that isn't yet put stands in the first bytes.
    pub pending: [u8; 4096],
    /// How many bytes these are, at most 4,096.
    pub fill: u64,
}

/// What a run keeps beside its registers.
#[derive(Drop)]
pub(crate) struct Progress {
    /// The turns that are left.
    pub(crate) left: u64,
    /// Whether the last event was a number.
    pub(crate) in_row: bool,
}
