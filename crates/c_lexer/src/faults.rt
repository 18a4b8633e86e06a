ghost use Rattle.std.specs.Prelude.{List, MatchOption, IfSome, length, ◌<◌};
ghost use Rattle.c_tokens.specs.Cutting.{Token, AreTokensOf};
ghost use Rattle.c_faults.specs.Answers.{IsLexFault};

use crate::scanning::prefix;

/// The offset at which no token, blank or whole comment begins, where the text is cut into these up to it;
/// none where it has tokens.
pub fn first_fault(text: &[u8]) -> Option<usize>
    ensures cut { MatchOption result ((toks : List Token) × AreTokensOf text.now toks) (IsLexFault text.now) }
    ensures within { IfSome result (λ at. at < length text.now) }
{
    let mut from = 0;
    let mut is_open = false;
    while from < text.len() {
        match prefix(&text[from..], is_open) {
            None => return Some(from),
            Some(prefix) => {
                from += prefix.len;
                is_open = prefix.is_open;
            }
        }
    }
    None
}
