ghost use Rattle.std.specs.Prelude.{◌≤◌, IsTrue, length};
ghost use Rattle.pipe_limits.specs.declared.TheConstants.{MOST_COMPONENTS};
ghost use Rattle.list_denotation.specs.Copies.{term_of, terms_of};
ghost use Rattle.list_denotation.specs.Literals.{all_have_words, has_words};

use list_denotation::{Expr, Exprs, Kind, Kinds};

/// An expression with its kind. It keeps that each number in it is a word.
#[derive(Drop)]
pub struct TypedExpr {
    pub kind: Kind,
    pub expr: Box<Expr>,
    ghost words: { IsTrue (has_words (term_of expr.value)) },
}

/// Two operands of one kind. It keeps that each number in them is a word.
#[derive(Drop)]
pub struct Operands {
    pub kind: Kind,
    pub left: Box<Expr>,
    pub right: Box<Expr>,
    ghost left_words: { IsTrue (has_words (term_of left.value)) },
    ghost right_words: { IsTrue (has_words (term_of right.value)) },
}

/// The expressions of a row with their kinds, at most 8. It keeps that each number in them is a word.
#[derive(Drop)]
pub struct TypedRow {
    pub kinds: Kinds,
    pub exprs: Exprs,
    ghost narrow: { length kinds ≤ MOST_COMPONENTS },
    ghost words: { IsTrue (all_have_words (terms_of exprs)) },
}
