use strm_num::{List, Word};

/// What a run writes: a word of a row, or the end of a row.
#[derive(Clone, Copy)]
pub enum Event {
    Emit(Word),
    EndRow,
}

/// The events of a run, in order.
pub type Events = List<Event>;
