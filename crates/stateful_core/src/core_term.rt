use list_denotation::{Expr, Exprs};
use strm_num::List;

/// An act of a turn. Its expressions are over the bound words of the term's scope, then the state,
/// then the local words of the turn, those of a row that the turn takes first.
///
/// `Let(e)` adds the value of e to the local words; where there is none, the stream ends with the
/// trap. `Read(a, e)` adds item e of the array input at position a; an index out of range ends the
/// stream as undefined. `KeepIf(e)` ends the turn without a row where e is false, and
/// `StopUnless(e)` ends the stream there. `Update(k, es)` computes all of es, and then writes them
/// over the state from word k on; the acts behind it see the new state. `When(e, a, b)` runs a
/// where e is true, and else b; local words that they add are gone afterwards. A word is false
/// where it is 0.
#[derive(Drop)]
pub enum Act {
    Let(Expr),
    Read(u32, Expr),
    KeepIf(Expr),
    StopUnless(Expr),
    Update(u32, Exprs),
    When(Expr, Acts, Acts),
}

/// Acts in order.
pub type Acts = List<Act>;

/// A core term. `scope` is the number of the bound words of the scope in which it stands.
///
/// A `Lin` makes rows: its state begins as `init`. While its guard is true of the state it takes
/// turns, each of which runs the acts and then gives the row `item`. A `Tr` does the same over the
/// rows of `of`: its guard is looked at before each row is asked for, and the local words of a
/// turn begin as the row. A `Nest` gives the rows of `inner` for each row of `of`, which are bound
/// words there. A `Zip` joins the rows of both arms, up to the shorter length.
#[derive(Drop)]
pub enum Core {
    Lin {
        scope: u32,
        init: Exprs,
        guard: Expr,
        acts: Acts,
        item: Exprs,
    },
    Tr {
        scope: u32,
        of: Box<Core>,
        init: Exprs,
        guard: Expr,
        acts: Acts,
        item: Exprs,
    },
    Nest {
        of: Box<Core>,
        inner: Box<Core>,
    },
    Zip {
        left: Box<Core>,
        right: Box<Core>,
    },
}
