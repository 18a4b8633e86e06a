ghost use Rattle.std.specs.Prelude.{◌≡◌, ◌≤◌, ◌+◌, ◌++◌, take, length, decimal};
ghost use Rattle.strm_num.specs.Magnitudes.{magnitude_of};
ghost use Rattle.strm_num.specs.SignedTexts.{sign_text, signed_text};

use crate::Word;
use crate::signed_words::{is_negative, magnitude};
use itoa::Buffer;

/// What stands before the digits.
fn sign(negative: bool) -> &'static [u8]
    ensures text { result.now ≡ sign_text negative }
    ensures short { length result.now ≤ 1 }
{
    if negative { b"-" } else { b"" }
}

/// Places bytes in a buffer, from a place on, and gives the place behind them.
fn place(bytes: &[u8], buf: &mut [u8], start: usize) -> usize
    requires { start + length bytes.now ≤ length buf.old }
    ensures placed { take result buf.new ≡ take start buf.old ++ bytes.now }
    ensures end { result ≡ start + length bytes.now }
{
    let end = start + bytes.len();
    buf[start..end].copy_from_slice(bytes);
    end
}

/// Writes the decimal of a word's signed value at the front of a buffer, without leading zeros, and
/// gives the number of its bytes. What stands behind them is anything.
#[tactic(auto, using(crate::proofs::DigitCounts::most_digits))]
pub fn write_signed(w: Word, buf: &mut [u8; 20]) -> usize
    ensures text { take result buf.new ≡ signed_text w }
    ensures within { result ≤ 20 }
{
    let mut digits = Buffer::new();
    let start = place(sign(is_negative(w)), buf, 0);
    place(digits.format(magnitude(w)).as_bytes(), buf, start)
}
