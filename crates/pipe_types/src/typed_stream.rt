ghost use Rattle.std.specs.Prelude.{◌≤◌, IsTrue, length};
ghost use Rattle.pipe_limits.specs.declared.TheConstants.{MOST_COMPONENTS};
ghost use Rattle.list_denotation.specs.Copies.{pipe_of};
ghost use Rattle.list_denotation.specs.Literals.{pipe_has_words};

use list_denotation::{Kinds, Stream};

/// A stream with the kinds of its rows, at most 8. It keeps that each number in it is a word.
#[derive(Drop)]
pub struct TypedStream {
    pub kinds: Kinds,
    pub stream: Box<Stream>,
    ghost narrow: { length kinds ≤ MOST_COMPONENTS },
    ghost words: { IsTrue (pipe_has_words (pipe_of stream.value)) },
}
