//! How a run ends.

/// How a run ends.
#[derive(Clone, Copy)]
pub enum Outcome {
    /// The program returned, or came to its end.
    Done,
    /// The program trapped.
    Trap,
    /// A turn was wanted, and none was left.
    Spent,
    /// The program did what C leaves undefined.
    Undefined,
    /// The sink failed.
    Write,
}
