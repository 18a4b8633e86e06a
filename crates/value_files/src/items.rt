ghost use Rattle.std.specs.Prelude.{◌≡◌, ◌≤◌, length};
ghost use Rattle.std.specs.List.{prefix_len};
ghost use Rattle.value_files.specs.Bytes.{is_blank, is_inner};
ghost use Rattle.value_files.specs.Numbers.{value_of};
ghost use Rattle.value_files.specs.Steps.{answer_at};

use crate::fault::{ItemFault, ValueFault};
use crate::numbers::value;
use pipe_limits::MOST_ITEMS;
use strm_num::Word;

fn is_blank(byte: u8) -> bool
    ensures { result ≡ is_blank byte }
{
    matches!(byte, b' ' | b'\t' | b'\r' | b'\n')
}

/// How many bytes at the start are blanks.
pub fn blanks_len(bytes: &[u8]) -> usize
    ensures run { result ≡ prefix_len is_blank bytes.now }
    ensures within { result ≤ length bytes.now }
{
    bytes.iter().take_while(|byte| is_blank(**byte)).count()
}

/// How many bytes at the start are no blanks.
pub fn item_len(bytes: &[u8]) -> usize
    ensures run { result ≡ prefix_len is_inner bytes.now }
    ensures within { result ≤ length bytes.now }
{
    bytes.iter().take_while(|byte| !is_blank(**byte)).count()
}

/// The word of an item at a place, behind this many items, or its fault.
pub fn value_at(behind: u64, item: &[u8], place: u64) -> Result<Word, ValueFault>
    ensures { result ≡ answer_at behind item.now place }
{
    if behind >= MOST_ITEMS {
        return Err(ValueFault::TooMany(place));
    }
    match value(item) {
        Ok(word) => Ok(word),
        Err(ItemFault::Bad) => Err(ValueFault::Bad(place)),
        Err(ItemFault::Range) => Err(ValueFault::Range(place)),
    }
}
