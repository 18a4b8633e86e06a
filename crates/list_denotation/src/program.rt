ghost use Rattle.std.specs.Prelude.{IsTrue};
ghost use Rattle.list_denotation.specs.Literals.{program_has_words};
ghost use Rattle.list_denotation.specs.Typing.{is_typed};

use crate::input::InputKinds;
use crate::stream::Stream;
use crate::terminal::Terminal;

/// A pipeline. It keeps that it is typed and within the limits: each input that it names is
/// declared and of the right kind, each variable is bound, each operand, row and state has the
/// kinds that its context asks for, a row has 1 to 8 words, and no opening expression holds a
/// division. It has at most 16 inputs, 128 operators, 8,192 expression nodes, expressions 200 deep
/// and streams nested 16 deep. And it keeps that each number in it is a word.
#[derive(Drop)]
pub struct Program {
    pub inputs: InputKinds,
    pub stream: Stream,
    pub terminal: Terminal,
    ghost typed: { IsTrue (is_typed inputs stream terminal) },
    ghost words: { IsTrue (program_has_words stream terminal) },
}
