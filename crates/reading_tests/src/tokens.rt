//! The tokens of texts, and their faults.

ghost use Rattle.std.specs.Prelude.{◌≤◌, length};

use pipe_lexer::tokens;
use pipe_limits::MOST_BYTES;
use std::alloc::{AllocError, Global};

/// The tokens of a text, each with its kind and its offsets; or the fault with its message.
fn shown(alloc: Global, src: &[u8]) -> Result<String, AllocError>
    requires { length src.now ≤ MOST_BYTES }
{
    match tokens(alloc, src) {
        Err(fault) => format!(in alloc; "{fault:?} {fault}"),
        Ok(list) => {
            let mut text = String::new(alloc);
            for token in list.as_slice() {
                let kind = token.kind;
                let part = format!(in alloc; "{kind:?} {}..{};", token.at, token.end)?;
                text.push_str(part.as_str())?;
            }
            Ok(text)
        }
    }
}

/// Whether this is shown of a text.
fn shows(alloc: Global, src: &[u8], want: &str) -> Result<bool, AllocError> {
    if src.len() as u64 > MOST_BYTES {
        return Ok(false);
    }
    let got = shown(alloc, src)?;
    Ok(got.as_str() == want)
}

/// Texts with what is shown of them.
const TEXTS: [(&[u8], &str); 22] = [
    (b"", ""),
    (b"gr\xc3\xb6\xc3\x9fe", "Name 0..7;"),
    (
        b"gr\xc3\xb6\xc3\x9fe gr\xc3\xb6\xc3\x9fe1",
        "Name 0..7;Name 8..16;",
    ),
    (
        b"| || && -> == != < <=",
        "Sym(Bar) 0..1;Sym(BarBar) 2..4;Sym(AndAnd) 5..7;Sym(Arrow) 8..10;Sym(EqualEqual) 11..13;Sym(BangEqual) 14..16;Sym(Less) 17..18;Sym(LessEqual) 19..21;",
    ),
    (
        b"> >= + - * / % !",
        "Sym(Greater) 0..1;Sym(GreaterEqual) 2..4;Sym(Plus) 5..6;Sym(Minus) 7..8;Sym(Times) 9..10;Sym(Slash) 11..12;Sym(Percent) 13..14;Sym(Bang) 15..16;",
    ),
    (
        b"(){}[],:;",
        "Sym(OpenParen) 0..1;Sym(CloseParen) 1..2;Sym(OpenBrace) 2..3;Sym(CloseBrace) 3..4;Sym(OpenBracket) 4..5;Sym(CloseBracket) 5..6;Sym(Comma) 6..7;Sym(Colon) 7..8;Sym(Semicolon) 8..9;",
    ),
    (
        b"input array int range unfold with while yield",
        "Key(Input) 0..5;Key(Array) 6..11;Key(Int) 12..15;Key(Range) 16..21;Key(Unfold) 22..28;Key(With) 29..33;Key(While) 34..39;Key(Yield) 40..45;",
    ),
    (
        b"next zip map filter take drop takeWhile scan",
        "Key(Next) 0..4;Key(Zip) 5..8;Key(Map) 9..12;Key(Filter) 13..19;Key(Take) 20..24;Key(Drop) 25..29;Key(TakeWhile) 30..39;Key(Scan) 40..44;",
    ),
    (
        b"flatMap fold print if then else true false len",
        "Key(FlatMap) 0..7;Key(Fold) 8..12;Key(Print) 13..18;Key(If) 19..21;Key(Then) 22..26;Key(Else) 27..31;Key(True) 32..36;Key(False) 37..42;Key(Len) 43..46;",
    ),
    (
        b"window pairwise index sum count least greatest",
        "Key(Window) 0..6;Key(Pairwise) 7..15;Key(Index) 16..21;Key(Sum) 22..25;Key(Count) 26..31;Key(Least) 32..37;Key(Greatest) 38..46;",
    ),
    (b"takewhile _x mapp", "Name 0..9;Name 10..12;Name 13..17;"),
    (
        b"a<=b<c",
        "Name 0..1;Sym(LessEqual) 1..3;Name 3..4;Sym(Less) 4..5;Name 5..6;",
    ),
    (b"|||", "Sym(BarBar) 0..2;Sym(Bar) 2..3;"),
    (b"007a", "Number(7) 0..3;Name 3..4;"),
    (b"9223372036854775807", "Number(9223372036854775807) 0..19;"),
    (
        b"range(0, 9223372036854775808) | print",
        "NumberTooLarge(9) NumberTooLarge",
    ),
    (b"a # b\n\tc\r\n", "Name 0..1;Name 7..8;"),
    (b"a # the end", "Name 0..1;"),
    (b"a & b", "BadChar(2) BadChar"),
    (b"\xc3\xb6 = 1", "BadChar(3) BadChar"),
    (b"ab\xff", "NotUtf8(2) NotUtf8"),
    (b"& \xc3", "NotUtf8(2) NotUtf8"),
];

#[test]
fn names_each_token_and_fault(rt: HostRuntime) {
    for (src, want) in TEXTS.as_slice() {
        assert!(rt;
            shows(rt.alloc(), src, want).expect(&rt, "memory"),
            "{want}"
        );
    }
}

#[test]
fn a_text_may_have_65536_bytes(rt: HostRuntime) {
    let blanks = vec![in rt.alloc(); b' '; 65_536].expect(&rt, "memory");
    assert!(rt; shows(rt.alloc(), blanks.as_slice(), "").expect(&rt, "memory"));
}
