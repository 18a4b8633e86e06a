ghost use Rattle.std.specs.Prelude.{◌≡◌, ◌==◌, if◌then◌else◌};
ghost use Rattle.strm_num.specs.Words.{quotient_of, remainder_of, is_less};
ghost use Rattle.strm_num.specs.Magnitudes.{is_negative, magnitude_of, with_sign};

use crate::Word;

/// The sign bit, which is 2^63: it is set in the words of negative values alone.
pub const SIGN: Word = 1 << 63;

/// Whether the signed value is below 0.
pub fn is_negative(x: Word) -> bool
    ensures { result ≡ is_negative x }
{
    x >= SIGN
}

/// The distance of the signed value from 0, at most 2^63.
pub fn magnitude(x: Word) -> Word
    ensures { result ≡ magnitude_of x }
{
    with_sign(is_negative(x), x)
}

/// The word at the distance `m` from 0, below 0 where `negative` says so.
fn with_sign(negative: bool, m: Word) -> Word
    ensures { result ≡ with_sign negative m }
{
    if negative { m.wrapping_neg() } else { m }
}

/// The quotient of the signed values, rounded towards 0, modulo 2^64, so that -2^63 divided by
/// -1 is -2^63. None exactly where `y` is 0.
pub fn div_signed(x: Word, y: Word) -> Option<Word>
    ensures { result ≡ (if y == 0 then None else Some (quotient_of x y)) }
{
    if y == 0 {
        return None;
    }
    let quotient = magnitude(x) / magnitude(y);
    Some(with_sign(is_negative(x) != is_negative(y), quotient))
}

/// The remainder of the signed values, with the sign of `x`, so that that of -2^63 and -1 is 0.
/// None exactly where `y` is 0.
pub fn rem_signed(x: Word, y: Word) -> Option<Word>
    ensures { result ≡ (if y == 0 then None else Some (remainder_of x y)) }
{
    if y == 0 {
        return None;
    }
    let remainder = magnitude(x) % magnitude(y);
    Some(with_sign(is_negative(x), remainder))
}

/// Whether the signed value of `x` is below that of `y`.
pub fn less_signed(x: Word, y: Word) -> bool
    ensures { result ≡ is_less x y }
{
    x ^ SIGN < y ^ SIGN
}
