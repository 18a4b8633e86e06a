ghost use Rattle.std.specs.Prelude.{◌≡◌, ◌≤◌, length, IfSome};
ghost use Rattle.c_lexer.specs.Comments.{comment_end};

use crate::characters::{begins_with_pair, is_in_comment};

/// How many characters of a comment there are behind its start, up to and with the first `*/`; none
/// where the text ends before it, or a character stands before it that may not stand in a comment.
pub fn comment_end(behind: &[u8]) -> Option<usize>
    ensures value { result ≡ comment_end behind.now }
    ensures within { IfSome result (λ n. n ≤ length behind.now) }
{
    for (i, c) in behind.iter().enumerate() {
        if begins_with_pair(&behind[i..], b'*', b'/') {
            return Some(i + 2);
        }
        if !is_in_comment(*c) {
            return None;
        }
    }
    None
}
