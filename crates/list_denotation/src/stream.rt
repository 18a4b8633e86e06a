use crate::expr::{Expr, Exprs};

/// A stream of rows. Each expression has the bound words of the stream's own scope and then those
/// that its form binds: the row of the stream before it, the state, or the state and then the row.
#[derive(Drop)]
pub enum Stream {
    /// The items of the array input at this position.
    Array(u32),
    /// The numbers from the first up to but without the second.
    Range(Expr, Expr),
    /// While the guard holds of the state, the item and then the next state.
    Unfold {
        seed: Exprs,
        guard: Expr,
        item: Exprs,
        next: Exprs,
    },
    Map(Box<Stream>, Exprs),
    Filter(Box<Stream>, Expr),
    Take(Box<Stream>, Expr),
    Drop(Box<Stream>, Expr),
    TakeWhile(Box<Stream>, Expr),
    /// The state after each row.
    Scan {
        of: Box<Stream>,
        seed: Exprs,
        next: Exprs,
    },
    /// The inner streams, one after the other, for each row of the first.
    FlatMap(Box<Stream>, Box<Stream>),
    /// Rows joined, up to the shorter length.
    Zip(Box<Stream>, Box<Stream>),
}
