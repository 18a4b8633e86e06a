ghost use Rattle.std.specs.Prelude.{◌≤◌, length};
ghost use Rattle.pipe_lexer.specs.Lexing.{IsLexed};
ghost use Rattle.pipe_tree.specs.Parsing.{Answer, ParsesAs, IsSameUnlessRefused, answer_of};
ghost use Rattle.pipe_tree.specs.Tokens.{toks_of};
ghost use Rattle.pipe_limits.specs.declared.TheConstants.{MOST_BYTES};

use crate::texts::read_tokens;
use pipe_lexer::{Token, tokens_are_in_order};
use pipe_reader::{answers_are_one, texts_are_read_exactly};
use pipe_tree::{ParseFault, Tree};
use std::alloc::Global;
use tree_counts::check_counts;

/// The tree of the tokens of a text of at most 65,536 bytes.
///
/// The tree is answered exactly where the tokens are a sentence of the grammar whose expressions are at
/// most 200 deep and whose streams are nested at most 16 deep, with at most 16 inputs, 128 operators
/// and 8,192 nodes of expressions. `Syntax` and `TooDeep` name the first token that no such sentence
/// goes on with, as `ParseFault` says; then the counts are looked at in this order, and the first past
/// its limit is named by the offset of the first that is one too many. `NoMemory` may be answered at
/// any time.
pub fn parse(alloc: Global, src: &[u8], tokens: &[Token]) -> Result<Tree, ParseFault>
    requires short { length src.now ≤ MOST_BYTES }
    requires lexed { IsLexed src.now tokens.now }
    ensures parses { ParsesAs (length src.now) (toks_of src.now tokens.now) (answer_of result) }
    ensures only { (other : Answer) → ParsesAs (length src.now) (toks_of src.now tokens.now) other
        → IsSameUnlessRefused (answer_of result) other }
{
    tokens_are_in_order();
    texts_are_read_exactly();
    answers_are_one();
    let tree = read_tokens(alloc, src, tokens)?;
    check_counts(&tree)?;
    Ok(Box::into_inner(tree))
}
