ghost use Rattle.value_files.specs.Files.{Answer, ReadsAs, IsSameUnlessRefused};

use crate::fault::ValueFault;
use crate::items::{blanks_len, item_len, value_at};
use list_denotation::Words;
use std::alloc::Global;
use strm_num::List;

/// The words of a file's items, in their order, or the first fault.
///
/// Items are looked at in order, and the place of an item's first byte is named, from 0. The
/// 4,194,305th is answered with `TooMany`, before its form is looked at. Of those before it, one that
/// isn't an optional `-` and one decimal digit or more is answered with `Bad`, and one whose number is
/// below -2^63 or above 2^63 - 1 with `Range`. A file without items is an empty list. `NoMemory` may be
/// answered at any time. The call goes once through the bytes, and copies no item.
pub fn values(alloc: Global, bytes: &[u8]) -> Result<Words, ValueFault>
    // The words are those of the items, and a fault is that of the first item that has one.
    ensures reads { ReadsAs bytes.now result }

    // Each answer is given exactly where it is right, but for a refusal of memory.
    ensures only { (other : Answer) → ReadsAs bytes.now other → IsSameUnlessRefused other result }
{
    let mut found = List::new(alloc);
    let mut from: usize = blanks_len(bytes);
    while from < bytes.len() {
        let end = from + item_len(&bytes[from..]);
        let word = value_at(found.len(), &bytes[from..end], from as u64)?;
        found.push(word)?;
        from = end + blanks_len(&bytes[end..]);
    }
    Ok(found)
}
