//! Acts that the cores of sources and stages are made of.

ghost use Rattle.std.specs.Prelude.{◌≡◌, ◌+◌, ◌<◌, ◌^◌, [], ◌∷◌, length, IfOk, OnOk};
ghost use Rattle.list_denotation.specs.Copies.{term_of, terms_of};
ghost use Rattle.list_denotation.specs.Terms.{Bin, Var, Lit};
ghost use Rattle.stateful_core.specs.CoreTerms.{Nil, join};
ghost use Rattle.stateful_core.specs.CoreCopies.{action_of, actions_of};
ghost use Rattle.stateful_core.specs.RowTests.{test_action};
ghost use Rattle.stateful_core.specs.StreamCores.{let_all, set_state, next_state, test_acts};

use crate::core_term::{Act, Acts};
use list_denotation::{
    BinOp, Expr, Exprs, all_undivided, boxed, copies, copy, is_undivided, single, variables,
};
use std::alloc::Global;
use strm_num::{List, NoMemory};

/// What a stage does with a row that fails its test: it leaves the row out, or stops.
#[derive(Clone, Copy)]
pub enum RowTest {
    Leave,
    Stop,
}

/// Appends a local word for each expression of a row. The one error is `NoMemory`.
#[tactic(auto, using(crate::proofs::AppendedActs::let_steps))]
pub fn push_lets(alloc: Global, es: &Exprs, acts: &mut Acts) -> Result<(), NoMemory>
    ensures { OnOk result (actions_of acts.new
        ≡ join (actions_of acts.old) (let_all (terms_of es.now) Nil)) }
{
    for i in 0..es.len() {
        acts.push(Act::Let(Box::into_inner(copy(alloc, es.get(i))?)))?;
    }
    Ok(())
}

/// Appends the act that writes a row over the state. The one error is `NoMemory`.
#[tactic(auto, using(crate::proofs::AppendedActs::set_steps))]
pub fn push_set(es: Exprs, acts: &mut Acts) -> Result<(), NoMemory>
    ensures { OnOk result (actions_of acts.new
        ≡ join (actions_of acts.old) (set_state (terms_of es))) }
{
    acts.push(Act::Update(0, es))
}

/// Appends the act that counts bound word k, the state, up or down by one, by the operator.
pub fn push_count(alloc: Global, op: BinOp, k: u32, acts: &mut Acts) -> Result<(), NoMemory>
    ensures { OnOk result (actions_of acts.new
        ≡ join (actions_of acts.old) (set_state (Bin op (Var k) (Lit 1) ∷ []))) }
{
    let word = boxed(alloc, Expr::Var(k))?;
    let one = boxed(alloc, Expr::Lit(1))?;
    let next = boxed(alloc, Expr::Bin(op, word, one))?;
    push_set(single(alloc, next)?, acts)
}

/// Appends the acts that write a row over the state, where k words are bound.
#[tactic(auto, using(crate::proofs::AppendedActs::state_steps))]
pub fn push_state(alloc: Global, k: u32, es: &Exprs, acts: &mut Acts) -> Result<(), NoMemory>
    requires { k + length es.now < 2 ^ 32 }
    ensures { OnOk result (actions_of acts.new
        ≡ join (actions_of acts.old) (next_state k (terms_of es.now))) }
{
    if all_undivided(es) {
        push_set(copies(alloc, es)?, acts)
    } else {
        push_lets(alloc, es, acts)?;
        push_set(variables(alloc, k, es.len() as u32)?, acts)
    }
}

fn test_act(test: RowTest, e: Expr) -> Act
    ensures { action_of result ≡ test_action test (term_of e) }
{
    match test {
        RowTest::Leave => Act::KeepIf(e),
        RowTest::Stop => Act::StopUnless(e),
    }
}

/// The acts that test a row, where k words are bound.
#[tactic(auto, using(crate::proofs::AppendedActs::test_steps))]
pub fn row_test(alloc: Global, test: RowTest, k: u32, e: &Expr) -> Result<Acts, NoMemory>
    ensures { IfOk result (λ made. actions_of made
        ≡ test_acts (test_action test) k (term_of e.now)) }
{
    let mut acts = List::new(alloc);
    let body = copy(alloc, e)?;
    if is_undivided(e) {
        acts.push(test_act(test, Box::into_inner(body)))?;
    } else {
        acts.push(Act::Let(Box::into_inner(body)))?;
        acts.push(test_act(test, Expr::Var(k)))?;
    }
    Ok(acts)
}
