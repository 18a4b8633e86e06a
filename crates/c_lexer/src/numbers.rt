ghost use Rattle.std.specs.Prelude.{◌≡◌, ◌≢◌, ◌<◌, ◌≤◌, ◌+◌, ◌-◌, ◌*◌, ◌^◌, ℕ, decimal, MatchOption, true};
ghost use Rattle.c_tokens.specs.Characters.{is_digit};
ghost use Rattle.c_lexer.specs.Numbers.{IsNumberToken, begins_no_number};
ghost use Rattle.c_words.specs.declared.token.CToken.{CToken};

use crate::characters::is_digit;
use c_words::CToken;

/// A number with one digit more, or none from 2^64 on.
fn with_digit(value: u64, digit: u8) -> Option<u64>
    requires { is_digit digit ≡ true }
    ensures { MatchOption result (2 ^ 64 ≤ value * 10 + (digit - 48)) (λ v. (v ≡ value * 10 + (digit - 48)) × (v < 2 ^ 64)) }
{
    let digit = u64::from(digit.saturating_sub(b'0'));
    value.checked_mul(10)?.checked_add(digit)
}

/// Whether nothing stands here, or a zero with more behind it.
fn begins_no_number(digits: &[u8]) -> bool
    ensures { result ≡ begins_no_number digits.now }
{
    matches!(digits, [] | [b'0', _, ..])
}

/// The number below 2^64 that is written so.
pub fn number(digits: &[u8]) -> Option<u64>
    ensures { MatchOption result ((n : ℕ) → n < 2 ^ 64 → decimal n ≢ digits.now) (λ n. decimal n ≡ digits.now) }
{
    if begins_no_number(digits) {
        return None;
    }
    let mut value: u64 = 0;
    for c in digits {
        if !is_digit(*c) {
            return None;
        }
        value = with_digit(value, *c)?;
    }
    Some(value)
}

/// The number that a text is as a token: `0` or `1`, or a constant.
pub fn number_token(text: &[u8]) -> Option<CToken>
    ensures { MatchOption result ((t : CToken) → IsNumberToken text.now t → ⊥) (IsNumberToken text.now) }
{
    if let Some(digits) = text.strip_suffix(b"ULL") {
        return Some(CToken::Constant(number(digits)?));
    }
    let number = number(text)?;
    if number <= 1 {
        Some(CToken::Bare(number))
    } else {
        None
    }
}
