//! What is printed of the tree of a text.

ghost use Rattle.std.specs.Prelude.{◌≤◌, length};
ghost use Rattle.pipe_lexer.specs.Lexing.{IsLexed};

use pipe_grammar::parse;
use pipe_lexer::{Token, tokens};
use pipe_limits::MOST_BYTES;
use pipe_printer::print_tree;
use std::alloc::Global;
use strm_num::NoMemory;

/// What is printed of a text's tree, and nothing where it has none.
fn printed(alloc: Global, src: &[u8]) -> Result<Vec<u8>, NoMemory>
    requires { length src.now ≤ MOST_BYTES }
{
    match tokens(alloc, src) {
        Ok(list) => printed_of_tokens(alloc, src, list.as_slice()),
        Err(_) => Ok(Vec::new(alloc)),
    }
}

fn printed_of_tokens(alloc: Global, src: &[u8], list: &[Token]) -> Result<Vec<u8>, NoMemory>
    requires short { length src.now ≤ MOST_BYTES }
    requires lexed { IsLexed src.now list.now }
{
    match parse(alloc, src, list) {
        Ok(tree) => print_tree(alloc, &tree),
        Err(_) => Ok(Vec::new(alloc)),
    }
}

/// Whether this is printed of a text's tree.
fn is_printed(alloc: Global, src: &[u8], want: &str) -> Result<bool, NoMemory> {
    if src.len() as u64 > MOST_BYTES {
        return Ok(false);
    }
    let got = printed(alloc, src)?;
    Ok(got.as_slice() == want.as_bytes())
}

/// A text of each form of the language, and what is printed of it.
const EACH_FORM: (&str, &str) = (
    "input a: array; input n: int;
zip(array a | take n, unfold {0, 1} with {i, j} while i < len(a) yield j next {j, i + j})
| filter {x, y} -> x % 2 == 0 && !(y < 3) | takeWhile x -> true
| flatMap x -> (range(0, 3) | map y -> if x < y then -x else y | drop 1)
| scan 0 with s x -> s + x | fold 0 with s x -> s - x * 2 || false",
    "input a : array ;
input n : int ;
zip ( array a | take n , unfold { 0 , 1 } with { i , j } while i < len ( a ) yield j next { j , i + j } ) | filter { x , y } -> x % 2 == 0 && ! ( y < 3 ) | takeWhile x -> true | flatMap x -> ( range ( 0 , 3 ) | map y -> if x < y then - x else y | drop 1 ) | scan 0 with s x -> s + x | fold 0 with s x -> s - x * 2 || false
",
);

/// The sum of the squares of the even items.
const EVEN_SQUARES: (&str, &str) = (
    "input a:array;array a|filter x->x%2==0|map x->x*x|fold 0 with s x->s+x",
    "input a : array ;
array a | filter x -> x % 2 == 0 | map x -> x * x | fold 0 with s x -> s + x
",
);

#[test]
fn a_tree_is_printed_with_blanks(rt: HostRuntime) {
    for (text, want) in [EACH_FORM, EVEN_SQUARES] {
        let is_so = is_printed(rt.alloc(), text.as_bytes(), want).expect(&rt, "memory");
        assert!(rt; is_so, "{text}");
    }
}
