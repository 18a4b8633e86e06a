ghost use Rattle.pipe_limits.specs.declared.TheConstants.{MOST_NODES, MOST_OPERATORS};
ghost use Rattle.std.specs.Prelude.{◌≡◌, ◌≤◌, ◌+◌, ◌*◌};
ghost use Rattle.list_denotation.specs.Copies.{term_of, terms_of, pipe_of, finish_of};
ghost use Rattle.list_denotation.specs.Pipelines.{pipeline_of};
ghost use Rattle.list_denotation.specs.Counts.{joint_count, term_measure, row_measure, stream_measure};
ghost use Rattle.list_denotation.specs.Counts.{finish_measure, stream_ops, is_exact, arm_loop};
ghost use Rattle.list_denotation.specs.Counts.{stream_loops, loops_around, stream_nest};
ghost use Rattle.list_denotation.specs.Counts.{ops, nodes, depth, most_vars, most_stmts};
ghost use Rattle.list_denotation.specs.Counts.{loops_of, nest_of};

use crate::expr::{Expr, Exprs};
use crate::program::Program;
use crate::stream::Stream;
use crate::terminal::Terminal;

/// The operators of a program, which are its sources, its stages and its terminal: from 2 to 128.
#[tactic(auto, using(crate::proofs::Limits::limits))]
pub fn ops(p: &Program) -> u64
    ensures { result ≡ ops (pipeline_of p.now) }
{
    stream_ops(&p.stream) + 1
}

/// The expression nodes of a program, at most 8,192.
#[tactic(auto, using(crate::proofs::Limits::limits))]
pub fn nodes(p: &Program) -> u64
    ensures { result ≡ nodes (pipeline_of p.now) }
{
    stream_measure(Measure::Nodes, &p.stream) + finish_measure(Measure::Nodes, &p.terminal)
}

/// The greatest depth of an expression of a program, at most 200, and 0 where there is none.
#[tactic(auto, using(crate::proofs::Limits::limits))]
pub fn depth(p: &Program) -> u64
    ensures { result ≡ depth (pipeline_of p.now) }
{
    stream_measure(Measure::Depth, &p.stream).max(finish_measure(Measure::Depth, &p.terminal))
}

/// The loops of a program whose loops are nested as its streams are, from 1 to 127: one for each
/// source that stands in no right arm of a `zip`, and one for each right arm that isn't exact and
/// stands in no other.
#[tactic(auto, using(crate::proofs::Limits::loop_limits))]
pub fn loops_of(p: &Program) -> u64
    ensures { result ≡ loops_of (pipeline_of p.now) }
{
    stream_loops(&p.stream)
}

/// How many of the loops that `loops_of` counts stand inside one another at most, from 1 to 127.
#[tactic(auto, using(crate::proofs::Limits::loop_limits))]
pub fn nest_of(p: &Program) -> u64
    ensures { result ≡ nest_of (pipeline_of p.now) }
{
    stream_nest(&p.stream)
}

/// The bound on the variables of the C text of a program, from 72 to 5,304: 32 for each operator, 6
/// for each level of depth, and 8.
#[tactic(auto, using(crate::proofs::Limits::limits))]
pub fn most_vars(p: &Program) -> u64
    ensures { result ≡ most_vars (pipeline_of p.now) }
{
    32 * ops(p) + 6 * depth(p) + 8
}

/// The bound on the statements of the C text of a program, from 144 to 204,816: 64 for each
/// operator, 24 for each expression node, and 16.
#[tactic(auto, using(crate::proofs::Limits::limits))]
pub fn most_stmts(p: &Program) -> u64
    ensures { result ≡ most_stmts (pipeline_of p.now) }
{
    64 * ops(p) + 24 * nodes(p) + 16
}

fn stream_ops(s: &Stream) -> u64
    requires { stream_ops (pipe_of s.now) ≤ MOST_OPERATORS }
    ensures { result ≡ stream_ops (pipe_of s.now) }
{
    match s {
        Stream::Array(_) => 1,
        Stream::Range(_, _) => 1,
        Stream::Unfold { .. } => 1,
        Stream::Map(of, _) => stream_ops(of) + 1,
        Stream::Filter(of, _) => stream_ops(of) + 1,
        Stream::Take(of, _) => stream_ops(of) + 1,
        Stream::Drop(of, _) => stream_ops(of) + 1,
        Stream::TakeWhile(of, _) => stream_ops(of) + 1,
        Stream::Scan { of, .. } => stream_ops(of) + 1,
        Stream::FlatMap(of, inner) => stream_ops(of) + stream_ops(inner) + 1,
        Stream::Zip(left, right) => stream_ops(left) + stream_ops(right) + 1,
    }
}

/// What is counted of expressions: their nodes, or how deep they are.
#[derive(Clone, Copy)]
enum Measure {
    Nodes,
    Depth,
}

/// What is counted of two parts.
fn joint_count(what: Measure, first: u64, second: u64) -> u64
    requires { joint_count what first second ≤ MOST_NODES }
    ensures { result ≡ joint_count what first second }
{
    match what {
        Measure::Nodes => first + second,
        Measure::Depth => first.max(second),
    }
}

#[tactic(auto, using(crate::proofs::Limits::joint_steps))]
fn stream_measure(what: Measure, s: &Stream) -> u64
    requires { stream_measure what (pipe_of s.now) ≤ MOST_NODES }
    ensures { result ≡ stream_measure what (pipe_of s.now) }
{
    match s {
        Stream::Array(_) => 0,
        Stream::Range(low, high) => joint_count(
            what,
            term_measure(what, low),
            term_measure(what, high),
        ),
        Stream::Unfold {
            seed,
            guard,
            item,
            next,
        } => {
            let behind = joint_count(what, row_measure(what, item), row_measure(what, next));
            let behind = joint_count(what, term_measure(what, guard), behind);
            joint_count(what, row_measure(what, seed), behind)
        }
        Stream::Map(of, body) => joint_count(
            what,
            stream_measure(what, of),
            row_measure(what, body),
        ),
        Stream::Filter(of, e) => joint_count(what, stream_measure(what, of), term_measure(what, e)),
        Stream::Take(of, e) => joint_count(what, stream_measure(what, of), term_measure(what, e)),
        Stream::Drop(of, e) => joint_count(what, stream_measure(what, of), term_measure(what, e)),
        Stream::TakeWhile(of, e) => joint_count(
            what,
            stream_measure(what, of),
            term_measure(what, e),
        ),
        Stream::Scan { of, seed, next } => {
            let rows = joint_count(what, row_measure(what, seed), row_measure(what, next));
            joint_count(what, stream_measure(what, of), rows)
        }
        Stream::FlatMap(a, b) | Stream::Zip(a, b) => {
            joint_count(what, stream_measure(what, a), stream_measure(what, b))
        }
    }
}

#[tactic(auto, using(crate::proofs::Limits::joint_steps))]
fn finish_measure(what: Measure, t: &Terminal) -> u64
    requires { finish_measure what (finish_of t.now) ≤ MOST_NODES }
    ensures { result ≡ finish_measure what (finish_of t.now) }
{
    match t {
        Terminal::Fold { seed, next } => {
            joint_count(what, row_measure(what, seed), row_measure(what, next))
        }
        Terminal::Print => 0,
    }
}

#[tactic(auto, using(crate::proofs::Limits::row_steps))]
fn row_measure(what: Measure, row: &Exprs) -> u64
    requires { row_measure what (terms_of row.now) ≤ MOST_NODES }
    ensures { result ≡ row_measure what (terms_of row.now) }
{
    let mut counted = 0u64;
    for i in 0..row.len() {
        counted = joint_count(what, counted, term_measure(what, row.get(i)));
    }
    counted
}

#[tactic(auto, using(crate::proofs::Limits::joint_steps))]
fn term_measure(what: Measure, e: &Expr) -> u64
    requires { term_measure what (term_of e.now) ≤ MOST_NODES }
    ensures { result ≡ term_measure what (term_of e.now) }
{
    match e {
        Expr::Lit(_) | Expr::Truth(_) | Expr::Var(_) | Expr::Param(_) | Expr::Len(_) => 1,
        Expr::Neg(a) | Expr::Not(a) => term_measure(what, a) + 1,
        Expr::Bin(_, a, b) | Expr::And(a, b) | Expr::Or(a, b) => {
            joint_count(what, term_measure(what, a), term_measure(what, b)) + 1
        }
        Expr::If(c, a, b) => {
            let branches = joint_count(what, term_measure(what, a), term_measure(what, b));
            joint_count(what, term_measure(what, c), branches) + 1
        }
    }
}

/// Whether each pull of the stream gives a row, or its end.
fn is_exact(s: &Stream) -> bool
    ensures { result ≡ is_exact (pipe_of s.now) }
{
    match s {
        Stream::Array(_) | Stream::Range(_, _) | Stream::Unfold { .. } => true,
        Stream::Map(of, _)
        | Stream::Take(of, _)
        | Stream::TakeWhile(of, _)
        | Stream::Scan { of, .. } => is_exact(of),
        Stream::Filter(_, _) | Stream::Drop(_, _) | Stream::FlatMap(_, _) => false,
        Stream::Zip(left, right) => is_exact(left) && is_exact(right),
    }
}

/// The loop of the right arm of a `zip`, where it has one of its own.
fn arm_loop(right: &Stream) -> u64
    ensures { result ≡ arm_loop (pipe_of right.now) }
{
    if is_exact(right) { 0 } else { 1 }
}

fn stream_loops(s: &Stream) -> u64
    requires { stream_loops (pipe_of s.now) ≤ MOST_OPERATORS }
    ensures { result ≡ stream_loops (pipe_of s.now) }
{
    match s {
        Stream::Array(_) | Stream::Range(_, _) | Stream::Unfold { .. } => 1,
        Stream::Map(of, _) => stream_loops(of),
        Stream::Filter(of, _) => stream_loops(of),
        Stream::Take(of, _) => stream_loops(of),
        Stream::Drop(of, _) => stream_loops(of),
        Stream::TakeWhile(of, _) => stream_loops(of),
        Stream::Scan { of, .. } => stream_loops(of),
        Stream::FlatMap(of, inner) => stream_loops(of) + stream_loops(inner),
        Stream::Zip(left, right) => stream_loops(left) + arm_loop(right),
    }
}

/// The loops that stand around a row of the stream.
fn loops_around(s: &Stream) -> u64
    requires { loops_around (pipe_of s.now) ≤ MOST_OPERATORS }
    ensures { result ≡ loops_around (pipe_of s.now) }
{
    match s {
        Stream::Array(_) | Stream::Range(_, _) | Stream::Unfold { .. } => 1,
        Stream::Map(of, _) => loops_around(of),
        Stream::Filter(of, _) => loops_around(of),
        Stream::Take(of, _) => loops_around(of),
        Stream::Drop(of, _) => loops_around(of),
        Stream::TakeWhile(of, _) => loops_around(of),
        Stream::Scan { of, .. } => loops_around(of),
        Stream::FlatMap(of, inner) => loops_around(of) + loops_around(inner),
        Stream::Zip(left, _) => loops_around(left),
    }
}

fn stream_nest(s: &Stream) -> u64
    requires { stream_nest (pipe_of s.now) ≤ MOST_OPERATORS }
    ensures { result ≡ stream_nest (pipe_of s.now) }
{
    match s {
        Stream::Array(_) | Stream::Range(_, _) | Stream::Unfold { .. } => 1,
        Stream::Map(of, _) => stream_nest(of),
        Stream::Filter(of, _) => stream_nest(of),
        Stream::Take(of, _) => stream_nest(of),
        Stream::Drop(of, _) => stream_nest(of),
        Stream::TakeWhile(of, _) => stream_nest(of),
        Stream::Scan { of, .. } => stream_nest(of),
        Stream::FlatMap(of, inner) => stream_nest(of).max(loops_around(of) + stream_nest(inner)),
        Stream::Zip(left, right) => stream_nest(left).max(loops_around(left) + arm_loop(right)),
    }
}
