//! The arithmetic of signed words.

use strm_num::{Word, div_signed, less_signed, rem_signed};

// The words of -2^63, 2^63 - 1, -1 and -7.
const MIN: Word = 0x8000_0000_0000_0000;

const MAX: Word = 0x7fff_ffff_ffff_ffff;

const MINUS_1: Word = 0xffff_ffff_ffff_ffff;

const MINUS_7: Word = 0xffff_ffff_ffff_fff9;

// 2^63 is 7 times the first, and 1; the second is its negation.
const SEVENTH: Word = 0x1249_2492_4924_9249;

const MINUS_SEVENTH: Word = 0xedb6_db6d_b6db_6db7;

/// Two words, their quotient and remainder, and whether the first is below the second.
type Case = (Word, Word, Option<Word>, Option<Word>, bool);

fn is_right(case: Case) -> bool {
    let (x, y, quotient, remainder, less) = case;
    div_signed(x, y) == quotient && rem_signed(x, y) == remainder && less_signed(x, y) == less
}

const CASES: [Case; 24] = [
    (MIN, MINUS_1, Some(MIN), Some(0), true),
    (MIN, 1, Some(MIN), Some(0), true),
    (MIN, 0, None, None, true),
    (MIN, MIN, Some(1), Some(0), false),
    (MIN, MAX, Some(MINUS_1), Some(MINUS_1), true),
    (MIN, MIN + 1, Some(1), Some(MINUS_1), true),
    (MIN, 7, Some(MINUS_SEVENTH), Some(MINUS_1), true),
    (MIN, MINUS_7, Some(SEVENTH), Some(MINUS_1), true),
    (MIN + 1, MINUS_1, Some(MAX), Some(0), true),
    (MIN + 1, MIN, Some(0), Some(MIN + 1), false),
    (MAX, MINUS_1, Some(MIN + 1), Some(0), false),
    (MAX, MIN, Some(0), Some(MAX), false),
    (MAX, MINUS_7, Some(MINUS_SEVENTH), Some(0), false),
    (MINUS_1, MIN, Some(0), Some(MINUS_1), false),
    (MINUS_1, 0, None, None, true),
    (MINUS_1, 1, Some(MINUS_1), Some(0), true),
    (MINUS_1, MINUS_7, Some(0), Some(MINUS_1), false),
    (0, 0, None, None, false),
    (0, MIN, Some(0), Some(0), false),
    (0, 1, Some(0), Some(0), true),
    (1, MINUS_7, Some(0), Some(1), false),
    (7, MINUS_7, Some(MINUS_1), Some(0), false),
    (MINUS_7, 7, Some(MINUS_1), Some(0), true),
    (MINUS_7, MINUS_1, Some(7), Some(0), true),
];

#[test]
fn signed_words_at_their_ends(rt: HostRuntime) {
    for case in CASES.as_slice() {
        assert!(rt; is_right(*case), "{} and {}", case.0, case.1);
    }
}
