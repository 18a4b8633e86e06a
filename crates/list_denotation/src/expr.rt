use strm_num::{List, Word};

/// The operators of two operands. `Add`, `Sub` and `Mul` are modulo 2^64. `Div` truncates towards
/// zero and `Rem` has the dividend's sign, both of signed values; a zero divisor is a trap. The
/// others compare signed values, and `Eq` and `Ne` also truth values, and give 0 or 1.
#[derive(Clone, Copy)]
pub enum BinOp {
    Add,
    Sub,
    Mul,
    Div,
    Rem,
    Eq,
    Ne,
    Lt,
    Le,
    Gt,
    Ge,
}

/// An expression over the bound words of its scope and the inputs. `Var(k)` is the k-th bound word,
/// counted from the outermost. `Param(k)` is the int input at position k, `Len(k)` the length of
/// the array input at position k. `And`, `Or` and `If` look only at the part that is chosen.
#[derive(Drop)]
pub enum Expr {
    Lit(Word),
    Truth(bool),
    Var(u32),
    Param(u32),
    Len(u32),
    Neg(Box<Expr>),
    Not(Box<Expr>),
    Bin(BinOp, Box<Expr>, Box<Expr>),
    And(Box<Expr>, Box<Expr>),
    Or(Box<Expr>, Box<Expr>),
    If(Box<Expr>, Box<Expr>, Box<Expr>),
}

/// A row of expressions.
pub type Exprs = List<Expr>;
