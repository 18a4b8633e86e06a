use crate::expr::Exprs;

/// What is done with the rows of a program's stream: they are printed, or folded into a state whose
/// row is printed at the end.
#[derive(Drop)]
pub enum Terminal {
    Fold { seed: Exprs, next: Exprs },
    Print,
}
