use strm_num::List;

/// What a word is: a number, or a truth value that is 0 or 1.
#[derive(Clone, Copy, Debug, PartialEq, Eq)]
pub enum Kind {
    Int,
    Bool,
}

/// The kinds of a row's words, in order.
pub type Kinds = List<Kind>;
