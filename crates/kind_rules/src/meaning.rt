use list_denotation::Kind;
use pipe_lexer::InputKind;

/// What a name in scope stands for: a bound word or an input, by its position from 0, with its kind.
#[derive(Clone, Copy)]
pub enum Meaning {
    Bound(u32, Kind),
    Input(u32, InputKind),
}
