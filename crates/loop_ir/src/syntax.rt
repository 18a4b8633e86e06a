use strm_num::{List, Word};

/// The operators of words, all unsigned. `Add`, `Sub` and `Mul` are modulo 2^64, `Div` and `Rem`
/// are undefined at a zero divisor, and `Xor` is bit by bit.
#[derive(Clone, Copy)]
pub enum WOp {
    Add,
    Sub,
    Mul,
    Div,
    Rem,
    Xor,
}

/// An operand: a constant, a variable, the length of the array parameter or the int parameter at a
/// position, or an operation. Its meaning is that of C's unsigned arithmetic on 64 bits (ISO/IEC
/// 9899:2011, 6.2.5 and 6.5).
#[derive(Drop)]
pub enum W {
    Const(Word),
    Var(u32),
    Len(u32),
    Int(u32),
    Bin(WOp, Box<W>, Box<W>),
}

/// A test of two operands, both unsigned: whether one is below the other, or they are the same.
/// `Both` and `Either` look at their second part only where the first one doesn't decide (ISO/IEC
/// 9899:2011, 6.5.13 and 6.5.14).
#[derive(Drop)]
pub enum T {
    Less(W, W),
    Same(W, W),
    Both(Box<T>, Box<T>),
    Either(Box<T>, Box<T>),
    Not(Box<T>),
}

/// How a program returns: `return 0` is `Done` and `return 1` is `Trap`.
#[derive(Clone, Copy)]
pub enum Verdict {
    Done,
    Trap,
}

/// A statement.
///
/// `Set(v, w)` sets variable v. `Read(v, a, w)` sets variable v to item w of the array parameter at
/// position a. `If(t, a, b)` runs a where the test holds, and else b. `Loop(t, body)` runs its body
/// again and again while the test holds. `Emit(w)` writes a word and `EndRow` the end of a row.
/// `Ret` ends the whole run.
#[derive(Drop)]
pub enum Stmt {
    Set(u32, W),
    Read(u32, u32, W),
    If(T, Stmts, Stmts),
    Loop(T, Stmts),
    Emit(W),
    EndRow,
    Ret(Verdict),
}

/// Statements in order.
pub type Stmts = List<Stmt>;
