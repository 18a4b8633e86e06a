ghost use Rattle.std.specs.Prelude.{◌≡◌, ◌<◌, ◌≤◌, ◌+◌, ◌++◌, ◌^◌, length, All, IfOk, OnOk};
ghost use Rattle.pipe_lexer.specs.Characters.{size_of};
ghost use Rattle.pipe_lexer.specs.Lexing.{Answer, LexesAs, IsSameUnlessRefused, HasText, AreInOrder, token_of};
ghost use Rattle.pipe_lexer.specs.Steps.{IsCharacters, IsCut, fault_of};
ghost use Rattle.pipe_limits.specs.declared.TheConstants.{MOST_BYTES};

use crate::fault::LexFault;
use crate::piece::{Piece, Stop};
use crate::scanning::prefix;
use crate::token::Token;
use std::alloc::Global;
use strm_num::{List, NoMemory};

/// The characters of a text.
fn characters(alloc: Global, src: &[u8]) -> Result<Vec<char>, LexFault>
    requires { length src.now ≤ MOST_BYTES }
    ensures { IsCharacters src.now result }
{
    match std::str::from_utf8(src) {
        Ok(text) => Ok(text.chars().collect(alloc)?),
        Err(e) => Err(LexFault::NotUtf8(e.valid_up_to() as u32)),
    }
}

/// How many bytes characters have.
fn size(chars: &[char]) -> u32
    requires { size_of chars.now < 2 ^ 32 }
    ensures { result ≡ size_of chars.now }
{
    let mut size = 0;
    for c in chars {
        size += c.len_utf8() as u32;
    }
    size
}

/// Adds a piece that is a token, with its offsets.
fn push_token(found: &mut List<Token>, piece: Piece, at: u32, end: u32) -> Result<(), NoMemory>
    ensures ok { OnOk result (found.new ≡ found.old ++ token_of piece at end) }
{
    match piece {
        Piece::Blank | Piece::Comment => Ok(()),
        Piece::Token(kind) => found.push(Token { kind, at, end }),
    }
}

/// The fault at an offset where the text stops.
fn fault_at(stop: Stop, at: u32) -> LexFault
    ensures { result ≡ fault_of stop at }
{
    match stop {
        Stop::BadChar => LexFault::BadChar(at),
        Stop::NumberTooLarge => LexFault::NumberTooLarge(at),
    }
}

/// The tokens of characters, or the fault where they stop.
fn cut(alloc: Global, chars: &[char]) -> Result<List<Token>, LexFault>
    requires { size_of chars.now ≤ MOST_BYTES }
    ensures { IsCut chars.now result }
{
    let mut found = List::new(alloc);
    let mut from: usize = 0;
    let mut at: u32 = 0;
    while from < chars.len() {
        match prefix(&chars[from..]) {
            Err(stop) => return Err(fault_at(stop, at)),
            Ok(prefix) => {
                let next = from + prefix.len;
                let end = at + size(&chars[from..next]);
                push_token(&mut found, prefix.piece, at, end)?;
                from = next;
                at = end;
            }
        }
    }
    Ok(found)
}

/// The tokens of a pipeline text of at most 65,536 bytes, in its order, or the first fault.
///
/// The text is cut from its start into tokens, blanks and comments, each as long as it can be.
/// `NotUtf8` is answered exactly where the bytes are not UTF-8, with the length of the longest prefix
/// that is. In a text the cutting stops where no piece begins before its end, and the offset where it
/// stops is named, in bytes from 0: by `NumberTooLarge` where decimal digits of a value above 2^63 - 1
/// stand there, and by `BadChar` at anything else. `NoMemory` may be answered at any time.
pub fn tokens(alloc: Global, src: &[u8]) -> Result<List<Token>, LexFault>
    requires { length src.now ≤ MOST_BYTES }

    // The tokens are those of the text, and a fault stands at its offset.
    ensures lexes { LexesAs src.now result }

    // Each answer is given exactly where it is right, but for a refusal of memory.
    ensures only { (other : Answer) → LexesAs src.now other → IsSameUnlessRefused other result }

    ensures texts { IfOk result (All (HasText src.now)) }
    ensures in_order { IfOk result (λ toks. AreInOrder 0 toks (length src.now)) }
{
    let chars = characters(alloc, src)?;
    cut(alloc, &chars)
}
