ghost use Rattle.std.specs.Prelude.{◌≡◌, IsSome, IsTrue, IfOk, OnOk, Some};
ghost use Rattle.list_denotation.specs.Copies.{term_of, terms_of, pipe_of, finish_of};
ghost use Rattle.list_denotation.specs.Typing.{kind_of, kinds_of, has_kinds};
ghost use Rattle.list_denotation.specs.Typing.{append_kinds, stream_kinds, program_kinds};

use crate::expr::{BinOp, Expr, Exprs};
use crate::input::InputKinds;
use crate::kind::{Kind, Kinds};
use crate::program::Program;
use crate::stream::Stream;
use crate::terminal::Terminal;
use std::alloc::Global;
use strm_num::{List, NoMemory};

/// The kinds of the row that the terminal of a program gives: of the stream's rows where they are
/// printed, of the state where they are folded. It has 1 to 8 of them. It gives `NoMemory` where
/// memory is refused.
#[tactic(auto, using(crate::proofs::TypedKinds::program_steps))]
pub fn row_kinds(alloc: Global, p: &Program) -> Result<Kinds, NoMemory>
    ensures { IfOk result (λ kinds.
        program_kinds p.now.inputs (pipe_of p.now.stream) (finish_of p.now.terminal) ≡ Some kinds) }
{
    let scope = List::new(alloc);
    let mut kinds = List::new(alloc);
    match &p.terminal {
        Terminal::Fold { seed, .. } => {
            push_row(&p.inputs, &scope, seed, &mut kinds)?;
            Ok(kinds)
        }
        Terminal::Print => {
            push_stream(alloc, &p.inputs, &scope, &p.stream, &mut kinds)?;
            Ok(kinds)
        }
    }
}

/// Appends the kinds of a stream's rows, in the scope of bound words of these kinds. After a refusal
/// some of them may have been appended.
#[tactic(auto, using(crate::proofs::TypedKinds::stream_steps))]
fn push_stream(
    alloc: Global,
    inputs: &InputKinds,
    scope: &Kinds,
    s: &Stream,
    kinds: &mut Kinds,
) -> Result<(), NoMemory>
    requires { IsTrue (has_kinds (stream_kinds inputs.now scope.now (pipe_of s.now))) }
    ensures { OnOk result (append_kinds kinds.old
        (stream_kinds inputs.now scope.now (pipe_of s.now)) ≡ Some kinds.new) }
{
    match s {
        Stream::Array(_) | Stream::Range(_, _) => kinds.push(Kind::Int),
        Stream::Unfold { seed, item, .. } => {
            let mut bound = List::from_slice(alloc, scope.as_slice())?;
            push_row(inputs, scope, seed, &mut bound)?;
            push_row(inputs, &bound, item, kinds)
        }
        Stream::Map(of, body) => {
            let mut bound = List::from_slice(alloc, scope.as_slice())?;
            push_stream(alloc, inputs, scope, of, &mut bound)?;
            push_row(inputs, &bound, body, kinds)
        }
        Stream::Filter(of, _) => push_stream(alloc, inputs, scope, of, kinds),
        Stream::Take(of, _) => push_stream(alloc, inputs, scope, of, kinds),
        Stream::Drop(of, _) => push_stream(alloc, inputs, scope, of, kinds),
        Stream::TakeWhile(of, _) => push_stream(alloc, inputs, scope, of, kinds),
        Stream::Scan { seed, .. } => push_row(inputs, scope, seed, kinds),
        Stream::FlatMap(of, inner) => {
            let mut bound = List::from_slice(alloc, scope.as_slice())?;
            push_stream(alloc, inputs, scope, of, &mut bound)?;
            push_stream(alloc, inputs, &bound, inner, kinds)
        }
        Stream::Zip(left, right) => {
            push_stream(alloc, inputs, scope, left, kinds)?;
            push_stream(alloc, inputs, scope, right, kinds)
        }
    }
}

/// Appends the kinds of a row of expressions, in the scope of bound words of these kinds. After a
/// refusal some of them may have been appended.
#[tactic(auto, using(crate::proofs::TypedKinds::row_steps))]
fn push_row(
    inputs: &InputKinds,
    scope: &Kinds,
    row: &Exprs,
    kinds: &mut Kinds,
) -> Result<(), NoMemory>
    requires { IsTrue (has_kinds (kinds_of inputs.now scope.now (terms_of row.now))) }
    ensures { OnOk result (append_kinds kinds.old
        (kinds_of inputs.now scope.now (terms_of row.now)) ≡ Some kinds.new) }
{
    for i in 0..row.len() {
        kinds.push(kind_of(inputs, scope, row.get(i)))?;
    }
    Ok(())
}

/// The kind of an expression, in the scope of bound words of these kinds.
#[tactic(auto, using(crate::proofs::TypedKinds::kind_steps))]
fn kind_of(inputs: &InputKinds, scope: &Kinds, e: &Expr) -> Kind
    requires { IsSome (kind_of inputs.now scope.now (term_of e.now)) }
    ensures { kind_of inputs.now scope.now (term_of e.now) ≡ Some result }
{
    match e {
        Expr::Lit(_) | Expr::Param(_) | Expr::Len(_) | Expr::Neg(_) => Kind::Int,
        Expr::Truth(_) | Expr::Not(_) | Expr::And(_, _) | Expr::Or(_, _) => Kind::Bool,
        Expr::Var(k) => *scope.get(u64::from(*k)),
        Expr::Bin(op, _, _) => match op {
            BinOp::Add | BinOp::Sub | BinOp::Mul | BinOp::Div | BinOp::Rem => Kind::Int,
            BinOp::Eq | BinOp::Ne | BinOp::Lt | BinOp::Le | BinOp::Gt | BinOp::Ge => Kind::Bool,
        },
        Expr::If(_, a, _) => kind_of(inputs, scope, a),
    }
}
