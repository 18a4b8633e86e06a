//! The limits of texts, of inputs and of work, as the other crates cite them.
//!
//! They keep every count of the program small: offsets in a text fit 32 bits, recursion over streams
//! ends soon, and what is computed of a program doesn't overflow. It depends on nothing.
#![tactic(auto)]

/// The most bytes of a pipeline text.
pub const MOST_BYTES: u64 = 65_536;

/// The most inputs of a text.
pub const MOST_INPUTS: u32 = 16;

/// The most operators of a text: sources, stages and the terminal.
pub const MOST_OPERATORS: u32 = 128;

/// The most nodes of expressions of a text.
pub const MOST_NODES: u32 = 8_192;

/// The greatest depth of an expression. One without parts has depth 1.
pub const MOST_DEPTH: u32 = 200;

/// The most streams inside one another. The whole stream has nesting 1.
pub const MOST_NESTING: u32 = 16;

/// The most components of a row.
pub const MOST_COMPONENTS: u32 = 8;

/// The most items of an array.
pub const MOST_ITEMS: u64 = 4_194_304;

/// The most bytes of a value file.
pub const MOST_VALUE_BYTES: u64 = 67_108_864;

/// The most bytes of a C text.
pub const MOST_C_BYTES: u64 = 33_554_432;

/// The most brackets `(` and `{` of a C text that are open at any place.
pub const MOST_OPEN_BRACKETS: u32 = 1_024;

/// The most work of a pipeline whose lists are computed: the rows of each source that it opens, and 1
/// for each opening.
pub const MOST_WORK: u64 = 1_000_000;
