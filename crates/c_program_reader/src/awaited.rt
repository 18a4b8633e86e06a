//! The tokens that must come next.

ghost use Rattle.std.specs.Prelude.{◌≡◌, OnOk};

use c_words::CToken;
use exact_reader::Stack;
use strm_num::NoMemory;

/// Puts these tokens, of which the first is innermost, in place of all that were awaited.
pub fn await_all(awaited: &mut Stack<CToken>, tokens: &[CToken]) -> Result<(), NoMemory>
    ensures { OnOk result (awaited.new ≡ tokens.now) }
{
    while let Some(_) = awaited.pop() {}
    let mut left = tokens.len();
    while left > 0 {
        left -= 1;
        awaited.push(tokens[left])?;
    }
    Ok(())
}
