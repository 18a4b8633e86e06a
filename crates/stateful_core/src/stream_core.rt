//! The core of a stream: what each source and each stage becomes.

ghost use Rattle.std.specs.Prelude.{◌≡◌, ◌+◌, ◌*◌, ◌<◌, ◌≤◌, ◌^◌, [], ◌∷◌, length, IfOk, IsTrue};
ghost use Rattle.pipe_limits.specs.declared.TheConstants.{MOST_COMPONENTS};
ghost use Rattle.list_denotation.specs.declared.expr.BinOp.TheVariants.{Ne};
ghost use Rattle.list_denotation.specs.Copies.{term_of, terms_of, pipe_of};
ghost use Rattle.list_denotation.specs.Counts.{stream_ops};
ghost use Rattle.list_denotation.specs.InputNames.{InputNames};
ghost use Rattle.list_denotation.specs.TermRows.{variables};
ghost use Rattle.list_denotation.specs.Terms.{Bin, Var};
ghost use Rattle.denotation_laws.specs.StreamScopes.{StreamReadsScope};
ghost use Rattle.stateful_core.specs.CoreTerms.{Cons, Lin, Tr, Nest, Zip};
ghost use Rattle.stateful_core.specs.CoreCopies.{action_of, actions_of, core_term_of};
ghost use Rattle.stateful_core.specs.RowTests.{test_action};
ghost use Rattle.stateful_core.specs.StreamCores.{set_state, one_more};
ghost use Rattle.stateful_core.specs.StreamCores.{rows_asked, drop_acts, array_core};
ghost use Rattle.stateful_core.specs.StreamCores.{range_start, range_core};
ghost use Rattle.stateful_core.specs.StreamCores.{unfold_core, map_core, test_core, take_core};
ghost use Rattle.stateful_core.specs.StreamCores.{drop_core, scan_core, core_at};
ghost use Rattle.stateful_core.specs.StreamCores.{stream_width};

use crate::acts::{RowTest, push_count, push_lets, push_state, row_test};
use crate::core_term::{Act, Acts, Core};
use list_denotation::{BinOp, Expr, Exprs, Stream, boxed, copies, copy, single, variables, width};
use std::alloc::Global;
use strm_num::{List, NoMemory};

fn source(
    alloc: Global,
    scope: u32,
    init: Exprs,
    guard: Box<Expr>,
    acts: Acts,
    item: Exprs,
) -> Result<Box<Core>, NoMemory>
    ensures { IfOk result (λ made. core_term_of made.value
        ≡ Lin scope (terms_of init) (term_of guard.value) (actions_of acts) (terms_of item)) }
{
    let guard = Box::into_inner(guard);
    Ok(Box::new(
        alloc,
        Core::Lin {
            scope,
            init,
            guard,
            acts,
            item,
        },
    )?)
}

fn stage(
    alloc: Global,
    scope: u32,
    of: Box<Core>,
    init: Exprs,
    guard: Box<Expr>,
    acts: Acts,
    item: Exprs,
) -> Result<Box<Core>, NoMemory>
    ensures { IfOk result (λ made. core_term_of made.value
        ≡ Tr scope (core_term_of of.value) (terms_of init) (term_of guard.value)
        (actions_of acts) (terms_of item)) }
{
    let guard = Box::into_inner(guard);
    Ok(Box::new(
        alloc,
        Core::Tr {
            scope,
            of,
            init,
            guard,
            acts,
            item,
        },
    )?)
}

/// A source whose state is a word that goes up by one, to an end. An act gives the word of its row.
fn counting_source(
    alloc: Global,
    scope: u32,
    start: Box<Expr>,
    end: Box<Expr>,
    first: Act,
) -> Result<Box<Core>, NoMemory>
    requires { scope + 2 < 2 ^ 32 }
    ensures { IfOk result (λ made. core_term_of made.value
        ≡ Lin scope (term_of start.value ∷ []) (Bin Ne (Var scope) (term_of end.value))
        (Cons (action_of first) (set_state (one_more scope ∷ []))) (Var (scope + 1) ∷ [])) }
{
    let mut acts = List::new(alloc);
    acts.push(first)?;
    push_count(alloc, BinOp::Add, scope, &mut acts)?;
    let state = boxed(alloc, Expr::Var(scope))?;
    let guard = boxed(alloc, Expr::Bin(BinOp::Ne, state, end))?;
    let init = single(alloc, start)?;
    let item = variables(alloc, scope + 1, 1)?;
    source(alloc, scope, init, guard, acts, item)
}

fn array_core(alloc: Global, scope: u32, k: u32) -> Result<Box<Core>, NoMemory>
    requires { scope + 2 < 2 ^ 32 }
    ensures { IfOk result (λ made. core_term_of made.value ≡ array_core scope k) }
{
    let start = boxed(alloc, Expr::Lit(0))?;
    let end = boxed(alloc, Expr::Len(k))?;
    counting_source(alloc, scope, start, end, Act::Read(k, Expr::Var(scope)))
}

fn range_start(alloc: Global, low: &Expr, high: &Expr) -> Result<Box<Expr>, NoMemory>
    ensures { IfOk result (λ made. term_of made.value
        ≡ range_start (term_of low.now) (term_of high.now)) }
{
    let end = copy(alloc, high)?;
    let start = copy(alloc, low)?;
    let empty = boxed(alloc, Expr::Bin(BinOp::Lt, end, start))?;
    let end = copy(alloc, high)?;
    let start = copy(alloc, low)?;
    boxed(alloc, Expr::If(empty, end, start))
}

fn range_core(alloc: Global, scope: u32, low: &Expr, high: &Expr) -> Result<Box<Core>, NoMemory>
    requires { scope + 2 < 2 ^ 32 }
    ensures { IfOk result (λ made. core_term_of made.value
        ≡ range_core scope (term_of low.now) (term_of high.now)) }
{
    let start = range_start(alloc, low, high)?;
    let end = copy(alloc, high)?;
    counting_source(alloc, scope, start, end, Act::Let(Expr::Var(scope)))
}

#[tactic(auto, using(crate::proofs::AppendedActs::row_steps))]
fn unfold_core(
    alloc: Global,
    scope: u32,
    seed: &Exprs,
    guard: &Expr,
    item: &Exprs,
    next: &Exprs,
) -> Result<Box<Core>, NoMemory>
    requires seed { length (terms_of seed.now) ≤ MOST_COMPONENTS }
    requires item { length (terms_of item.now) ≤ MOST_COMPONENTS }
    requires next { length (terms_of next.now) ≤ MOST_COMPONENTS }
    requires room { scope < 2 ^ 16 }
    ensures { IfOk result (λ made. core_term_of made.value
        ≡ unfold_core scope (terms_of seed.now) (term_of guard.now) (terms_of item.now)
        (terms_of next.now)) }
{
    let init = copies(alloc, seed)?;
    let guard = copy(alloc, guard)?;
    let first = scope + width(seed);
    let row = variables(alloc, first, width(item))?;
    let mut acts = List::new(alloc);
    push_lets(alloc, item, &mut acts)?;
    push_state(alloc, first + width(item), next, &mut acts)?;
    source(alloc, scope, init, guard, acts, row)
}

#[tactic(auto, using(crate::proofs::AppendedActs::row_steps))]
fn map_core(
    alloc: Global,
    scope: u32,
    wide: u32,
    of: Box<Core>,
    body: &Exprs,
) -> Result<Box<Core>, NoMemory>
    requires body { length (terms_of body.now) ≤ MOST_COMPONENTS }
    requires wide { wide ≤ MOST_COMPONENTS }
    requires room { scope < 2 ^ 16 }
    ensures { IfOk result (λ made. core_term_of made.value
        ≡ map_core scope wide (core_term_of of.value) (terms_of body.now)) }
{
    let row = variables(alloc, scope + wide, width(body))?;
    let guard = boxed(alloc, Expr::Truth(true))?;
    let mut acts = List::new(alloc);
    push_lets(alloc, body, &mut acts)?;
    stage(alloc, scope, of, List::new(alloc), guard, acts, row)
}

fn test_core(
    alloc: Global,
    test: RowTest,
    scope: u32,
    wide: u32,
    of: Box<Core>,
    body: &Expr,
) -> Result<Box<Core>, NoMemory>
    requires wide { wide ≤ MOST_COMPONENTS }
    requires room { scope < 2 ^ 16 }
    ensures { IfOk result (λ made. core_term_of made.value
        ≡ test_core (test_action test) scope wide (core_term_of of.value) (term_of body.now)) }
{
    let row = variables(alloc, scope, wide)?;
    let guard = boxed(alloc, Expr::Truth(true))?;
    let acts = row_test(alloc, test, scope + wide, body)?;
    stage(alloc, scope, of, List::new(alloc), guard, acts, row)
}

fn rows_asked(alloc: Global, count: &Expr) -> Result<Exprs, NoMemory>
    ensures { IfOk result (λ made. terms_of made ≡ rows_asked (term_of count.now) ∷ []) }
{
    let number = copy(alloc, count)?;
    let zero = boxed(alloc, Expr::Lit(0))?;
    let negative = boxed(alloc, Expr::Bin(BinOp::Lt, number, zero))?;
    let zero = boxed(alloc, Expr::Lit(0))?;
    let number = copy(alloc, count)?;
    let asked = boxed(alloc, Expr::If(negative, zero, number))?;
    single(alloc, asked)
}

/// A stage whose state is how many rows of those that are asked for are left.
fn counted_stage(
    alloc: Global,
    scope: u32,
    wide: u32,
    of: Box<Core>,
    count: &Expr,
    guard: Box<Expr>,
    acts: Acts,
) -> Result<Box<Core>, NoMemory>
    requires wide { wide ≤ MOST_COMPONENTS }
    requires room { scope < 2 ^ 16 }
    ensures { IfOk result (λ made. core_term_of made.value
        ≡ Tr scope (core_term_of of.value) (rows_asked (term_of count.now) ∷ [])
        (term_of guard.value) (actions_of acts) (variables (scope + 1) wide)) }
{
    let init = rows_asked(alloc, count)?;
    let row = variables(alloc, scope + 1, wide)?;
    stage(alloc, scope, of, init, guard, acts, row)
}

fn take_core(
    alloc: Global,
    scope: u32,
    wide: u32,
    of: Box<Core>,
    count: &Expr,
) -> Result<Box<Core>, NoMemory>
    requires wide { wide ≤ MOST_COMPONENTS }
    requires room { scope < 2 ^ 16 }
    ensures { IfOk result (λ made. core_term_of made.value
        ≡ take_core scope wide (core_term_of of.value) (term_of count.now)) }
{
    let guard = boxed(alloc, Expr::Var(scope))?;
    let mut acts = List::new(alloc);
    push_count(alloc, BinOp::Sub, scope, &mut acts)?;
    counted_stage(alloc, scope, wide, of, count, guard, acts)
}

#[tactic(auto, using(crate::proofs::AppendedActs::drop_made))]
fn drop_acts(alloc: Global, k: u32) -> Result<Acts, NoMemory>
    ensures { IfOk result (λ made. actions_of made ≡ drop_acts k) }
{
    let mut inside = List::new(alloc);
    push_count(alloc, BinOp::Sub, k, &mut inside)?;
    inside.push(Act::KeepIf(Expr::Truth(false)))?;
    let mut acts = List::new(alloc);
    acts.push(Act::When(Expr::Var(k), inside, List::new(alloc)))?;
    Ok(acts)
}

fn drop_core(
    alloc: Global,
    scope: u32,
    wide: u32,
    of: Box<Core>,
    count: &Expr,
) -> Result<Box<Core>, NoMemory>
    requires wide { wide ≤ MOST_COMPONENTS }
    requires room { scope < 2 ^ 16 }
    ensures { IfOk result (λ made. core_term_of made.value
        ≡ drop_core scope wide (core_term_of of.value) (term_of count.now)) }
{
    let guard = boxed(alloc, Expr::Truth(true))?;
    let acts = drop_acts(alloc, scope)?;
    counted_stage(alloc, scope, wide, of, count, guard, acts)
}

#[tactic(auto, using(crate::proofs::AppendedActs::row_steps))]
fn scan_core(
    alloc: Global,
    scope: u32,
    wide: u32,
    of: Box<Core>,
    seed: &Exprs,
    next: &Exprs,
) -> Result<Box<Core>, NoMemory>
    requires seed { length (terms_of seed.now) ≤ MOST_COMPONENTS }
    requires next { length (terms_of next.now) ≤ MOST_COMPONENTS }
    requires wide { wide ≤ MOST_COMPONENTS }
    requires room { scope < 2 ^ 16 }
    ensures { IfOk result (λ made. core_term_of made.value
        ≡ scan_core scope wide (core_term_of of.value) (terms_of seed.now) (terms_of next.now)) }
{
    let init = copies(alloc, seed)?;
    let guard = boxed(alloc, Expr::Truth(true))?;
    let mut acts = List::new(alloc);
    let row = variables(alloc, scope, width(seed))?;
    push_state(alloc, scope + width(seed) + wide, next, &mut acts)?;
    stage(alloc, scope, of, init, guard, acts, row)
}

/// The words of a stream's rows.
fn stream_width(s: &Stream) -> u32
    requires { stream_width (pipe_of s.now) < 2 ^ 32 }
    ensures { result ≡ stream_width (pipe_of s.now) }
{
    match s {
        Stream::Array(_) | Stream::Range(_, _) => 1,
        Stream::Unfold { item, .. } => width(item),
        Stream::Map(_, body) => width(body),
        Stream::Filter(of, _) => stream_width(of),
        Stream::Take(of, _) => stream_width(of),
        Stream::Drop(of, _) => stream_width(of),
        Stream::TakeWhile(of, _) => stream_width(of),
        Stream::Scan { seed, .. } => width(seed),
        Stream::FlatMap(_, inner) => stream_width(inner),
        Stream::Zip(left, right) => stream_width(left) + stream_width(right),
    }
}

/// Inner rows for each row.
fn nest_core(alloc: Global, of: Box<Core>, inner: Box<Core>) -> Result<Box<Core>, NoMemory>
    ensures { IfOk result (λ made. core_term_of made.value
        ≡ Nest (core_term_of of.value) (core_term_of inner.value)) }
{
    Ok(Box::new(alloc, Core::Nest { of, inner })?)
}

/// Rows side by side.
fn zip_core(alloc: Global, left: Box<Core>, right: Box<Core>) -> Result<Box<Core>, NoMemory>
    ensures { IfOk result (λ made. core_term_of made.value
        ≡ Zip (core_term_of left.value) (core_term_of right.value)) }
{
    Ok(Box::new(alloc, Core::Zip { left, right })?)
}

/// The core of a stream in a scope of so many bound words.
#[tactic(auto, using(crate::proofs::StreamScopes::scope_steps))]
pub fn core_at(alloc: Global, s: &Stream, scope: u32) -> Result<Box<Core>, NoMemory>
    requires scoped { (may : InputNames) × StreamReadsScope may scope (pipe_of s.now) }
    requires room { scope + MOST_COMPONENTS * stream_ops (pipe_of s.now) < 2 ^ 16 }
    ensures { IfOk result (λ made. core_term_of made.value ≡ core_at scope (pipe_of s.now)) }
{
    match s {
        Stream::Array(k) => array_core(alloc, scope, *k),
        Stream::Range(low, high) => range_core(alloc, scope, low, high),
        Stream::Unfold {
            seed,
            guard,
            item,
            next,
        } => { unfold_core(alloc, scope, seed, guard, item, next) }
        Stream::Map(of, body) => {
            let below = core_at(alloc, of, scope)?;
            map_core(alloc, scope, stream_width(of), below, body)
        }
        Stream::Filter(of, body) => {
            let below = core_at(alloc, of, scope)?;
            test_core(alloc, RowTest::Leave, scope, stream_width(of), below, body)
        }
        Stream::Take(of, count) => {
            let below = core_at(alloc, of, scope)?;
            take_core(alloc, scope, stream_width(of), below, count)
        }
        Stream::Drop(of, count) => {
            let below = core_at(alloc, of, scope)?;
            drop_core(alloc, scope, stream_width(of), below, count)
        }
        Stream::TakeWhile(of, body) => {
            let below = core_at(alloc, of, scope)?;
            test_core(alloc, RowTest::Stop, scope, stream_width(of), below, body)
        }
        Stream::Scan { of, seed, next } => {
            let below = core_at(alloc, of, scope)?;
            scan_core(alloc, scope, stream_width(of), below, seed, next)
        }
        Stream::FlatMap(of, inner) => {
            let outer = core_at(alloc, of, scope)?;
            let inner = core_at(alloc, inner, scope + stream_width(of))?;
            nest_core(alloc, outer, inner)
        }
        Stream::Zip(left, right) => {
            let left = core_at(alloc, left, scope)?;
            let right = core_at(alloc, right, scope)?;
            zip_core(alloc, left, right)
        }
    }
}
