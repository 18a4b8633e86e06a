//! The smallest pieces of text, each put at the end of what is there: bytes, numbers and blanks.
//!
//! It depends on strm_num, for `NoMemory`, and on itoa, for the digits of numbers. Each call carries
//! the promise of its piece: what was there stays, and the piece stands behind it. Where memory is
//! refused, some of the piece may stand there. All later text is made of these pieces.
#![tactic(auto)]

ghost use Rattle.std.specs.Prelude.{◌≡◌, ◌≤◌, ◌++◌, decimal, replicate, OnOk};

use itoa::Buffer;
use strm_num::NoMemory;

/// The most blanks that `put_blanks` puts.
pub const MOST_BLANKS: usize = 32;

const BLANKS: [u8; MOST_BLANKS] = [b' '; MOST_BLANKS];

/// Puts these bytes at the end. The one error is `NoMemory`, where memory is refused.
pub fn put(out: &mut Vec<u8>, text: &[u8]) -> Result<(), NoMemory>
    ensures { OnOk result (out.new.items ≡ out.old.items ++ text.now) }
{
    out.extend_from_slice(text)?;
    Ok(())
}

/// Puts a number in decimal, without a leading zero. The one error is `NoMemory`.
pub fn put_number(out: &mut Vec<u8>, n: u64) -> Result<(), NoMemory>
    ensures { OnOk result (out.new.items ≡ out.old.items ++ decimal n) }
{
    let mut buffer = Buffer::new();
    put(out, buffer.format(n).as_bytes())
}

/// Puts a text and a number directly behind it, as in a name. The one error is `NoMemory`.
pub fn put_numbered(out: &mut Vec<u8>, text: &[u8], n: u64) -> Result<(), NoMemory>
    ensures { OnOk result (out.new.items ≡ out.old.items ++ (text.now ++ decimal n)) }
{
    put(out, text)?;
    put_number(out, n)
}

/// Puts so many blanks, at most 32. The one error is `NoMemory`.
#[tactic(auto, using(crate::proofs::Blanks::first_blanks))]
pub fn put_blanks(out: &mut Vec<u8>, count: usize) -> Result<(), NoMemory>
    requires { count ≤ MOST_BLANKS }
    ensures { OnOk result (out.new.items ≡ out.old.items ++ replicate count 32) }
{
    put(out, &BLANKS[..count])
}
