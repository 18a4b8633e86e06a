/// What the program is asked to do. Word 0 is the command, and word 1 names the file, but for `Bench`,
/// which has none.
///
/// `rest` is the number of the first word behind the file and the option: from there on each word is a
/// value that is given, for `Run` and `Model` as `NAME=VALUE`.
#[derive(Clone, Copy)]
pub enum Job {
    /// Write the kinds of the row that a pipeline's terminal gives, and its counts.
    Check,
    /// Write a pipeline's C text.
    Compile,
    /// Run a pipeline with at most so many turns of its loops.
    Run { turns: u64, rest: u64 },
    /// Run a C text with at most so many turns of its loops.
    Exec { turns: u64, rest: u64 },
    /// Write what a pipeline's lists give, where each source is cut off behind so many rows.
    Model { pulls: u64, rest: u64 },
    /// Run the pipeline of the bench on so many items of a seed.
    Bench { seed: u64, count: u64 },
}

/// How many turns a run may take where the words say nothing of it.
pub const DEFAULT_TURNS: u64 = 100_000_000;

/// How many items a bench may have.
pub const MOST_BENCH_ITEMS: u64 = 1_000_000;
