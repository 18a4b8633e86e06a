ghost use Rattle.std.specs.Prelude.{◌≡◌, ◌+◌, ◌*◌, ◌-◌, ℕ};
ghost use Rattle.std.specs.List.{list_all};
ghost use Rattle.value_files.specs.Bytes.{is_digit};
ghost use Rattle.value_files.specs.Numbers.{are_digits, digits_of, has_sign, most_of, natural_of, number_with, value_of, within_word, word_or_range};

use crate::fault::ItemFault;
use strm_num::{SIGN, Word};

fn is_digit(byte: u8) -> bool
    ensures { result ≡ is_digit byte }
{
    matches!(byte, b'0'..=b'9')
}

/// Whether a `-` stands at the start.
fn has_sign(item: &[u8]) -> bool
    ensures { result ≡ has_sign item.now }
{
    !item.is_empty() && item[0] == b'-'
}

/// What stands behind the sign, where there is one.
fn digits_of(item: &[u8]) -> &[u8]
    ensures { result.now ≡ digits_of item.now }
{
    if has_sign(item) { &item[1..] } else { item }
}

/// Whether nothing but digits stands here.
fn all_digits(bytes: &[u8]) -> bool
    ensures { result ≡ list_all is_digit bytes.now }
{
    bytes.iter().all(|byte| is_digit(*byte))
}

/// Whether this is one digit or more, and nothing else.
fn are_digits(digits: &[u8]) -> bool
    ensures { result ≡ are_digits digits.now }
{
    !digits.is_empty() && all_digits(digits)
}

/// A number with one digit more, or none where it is 2^64 or more.
fn with_digit(number: Option<Word>, digit: u8) -> Option<Word>
    ensures { (n : ℕ) → number ≡ within_word n → result ≡ within_word (n * 10 + (digit - 48)) }
{
    number?
        .checked_mul(10)?
        .checked_add(digit.saturating_sub(b'0') as u64)
}

/// The number that decimal digits write, or none where it is 2^64 or more.
fn number(digits: &[u8]) -> Option<Word>
    ensures { result ≡ within_word (number_with 0 digits.now) }
{
    let mut number = Some(0);
    for digit in digits {
        number = with_digit(number, *digit);
    }
    number
}

/// The number that decimal digits write, leading zeros allowed. None exactly where this isn't one digit
/// or more and nothing else, or where the number is 2^64 or more.
pub fn natural(digits: &[u8]) -> Option<Word>
    ensures { result ≡ natural_of digits.now }
{
    if are_digits(digits) {
        number(digits)
    } else {
        None
    }
}

/// The largest distance from 0 on this side of it.
fn most(negative: bool) -> Word
    ensures { result ≡ most_of negative }
{
    if negative { SIGN } else { SIGN - 1 }
}

/// The word at this distance from 0, below 0 where `negative` says so, if the number is in range.
fn word(negative: bool, number: Option<Word>) -> Result<Word, ItemFault>
    ensures { (n : ℕ) → number ≡ within_word n → result ≡ word_or_range negative n }
{
    match number {
        Some(distance) if distance <= most(negative) => Ok(if negative {
            distance.wrapping_neg()
        } else {
            distance
        }),
        _ => Err(ItemFault::Range),
    }
}

/// The word of a number as it stands in a command's words. The whole slice is the item: `Bad` is
/// answered exactly where it isn't an optional `-` and one decimal digit or more, so that blanks in
/// it are bad, and `Range` exactly where its number is below -2^63 or above 2^63 - 1.
pub fn value(item: &[u8]) -> Result<Word, ItemFault>
    // The answer is the one that the bytes have.
    ensures { result ≡ value_of item.now }
{
    let digits = digits_of(item);
    if !are_digits(digits) {
        return Err(ItemFault::Bad);
    }
    word(has_sign(item), number(digits))
}
