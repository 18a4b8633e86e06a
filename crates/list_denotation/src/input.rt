use strm_num::{List, Word};

/// A list of words.
pub type Words = List<Word>;

/// What an input is declared as.
#[derive(Clone, Copy, Debug)]
pub enum InputKind {
    Array,
    Int,
}

/// The kinds of a program's inputs, in order of declaration.
pub type InputKinds = List<InputKind>;

/// What an input holds.
#[derive(Drop)]
pub enum Input {
    Array(Words),
    Int(Word),
}

/// The inputs of a run, in order of declaration.
pub type Inputs = List<Input>;
