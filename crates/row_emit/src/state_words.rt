//! The statements that set words which stand in variables.

ghost use Rattle.std.specs.Prelude.{◌≡◌, ◌+◌, ◌<◌, ◌≤◌, ◌^◌, ◌||◌, ◌∷◌, length, is_some, IsTrue, IfOk, OnOk};
ghost use Rattle.list_denotation.specs.Copies.{term_of, terms_of};
ghost use Rattle.list_denotation.specs.Scopes.{is_bound};
ghost use Rattle.expr_constants.specs.Constants.{constant_of};
ghost use Rattle.expr_lower.specs.Costs.{is_plain, temps_of};
ghost use Rattle.expr_phrases.specs.PhraseCopies.{Appends};
ghost use Rattle.turn_blocks.specs.StateBlocks.{is_word, is_straight, leaf_block, leaf_needs};
ghost use Rattle.turn_blocks.specs.StateBlocks.{word_block, word_needs, words_piece};
ghost use Rattle.turn_blocks.specs.WordUses.{avoids, row_avoids};
ghost use Rattle.row_emit.specs.Placed.{Puts};
ghost use Rattle.row_emit.specs.Settings.{word_next, AreSettable};

use crate::conditions::put_condition;
use expr_constants::constant;
use expr_lower::{is_plain, lower_into};
use list_denotation::Expr;
use loop_ir::{Stmt, Stmts, W};
use state_alloc::Slots;
use std::alloc::Global;
use strm_num::NoMemory;
use word_uses::{is_unread, row_is_unread};

// Whether an expression is word k as it stands: the word, or a choice of it that a constant makes.
fn is_word(k: u32, e: &Expr) -> bool
    ensures { result ≡ is_word k (term_of e.now) }
{
    match e {
        Expr::Var(j) => *j == k,
        Expr::If(c, a, b) => match constant(c) {
            Some(0) => is_word(k, b),
            Some(_) => is_word(k, a),
            None => false,
        },
        _ => false,
    }
}

// Whether an expression doesn't read word k.
fn avoids(k: u32, e: &Expr) -> bool
    ensures { result ≡ avoids k (term_of e.now) }
{
    is_unread(u64::from(k), 1, e)
}

// Whether a choice with this condition is computed as a whole: it doesn't read word k, or its
// condition is a constant.
fn is_whole(k: u32, e: &Expr, condition: &Expr) -> bool
    ensures { result
        ≡ (avoids k (term_of e.now) || is_some (constant_of (term_of condition.now))) }
{
    avoids(k, e) || constant(condition).is_some()
}

fn row_avoids(k: u32, row: &[Expr]) -> bool
    ensures { result ≡ row_avoids k (terms_of row.now) }
{
    row_is_unread(u64::from(k), 1, row)
}

fn is_straight(k: u32, e: &Expr) -> bool
    ensures { result ≡ (is_plain (term_of e.now) || avoids k (term_of e.now)) }
{
    is_plain(e) || avoids(k, e)
}

/// Appends the statements that set word k to the value of an expression, by way of the variable
/// `scratch` where the expression reads the word while it is computed. Says whether they use that
/// variable. The one error is `NoMemory`.
#[tactic(auto, using(crate::proofs::Appends::push_steps))]
fn set_leaf(
    alloc: Global,
    k: u32,
    e: &Expr,
    slots: &Slots,
    scratch: u32,
    block: &mut Stmts,
) -> Result<bool, NoMemory>
    requires word { k < length slots.now.rows }
    requires bound { IsTrue (is_bound (length slots.now.rows) (term_of e.now)) }
    requires temporaries { temps_of (term_of e.now) ≤ slots.now.temps }
    ensures block { OnOk result (Appends block.old block.new
        (leaf_block slots.now.rows slots.now.first_temp k scratch (term_of e.now))) }
    ensures used { IfOk result (λ used. used
        ≡ leaf_needs slots.now.rows slots.now.first_temp k (term_of e.now)) }
{
    if is_word(k, e) {
        return Ok(false);
    }
    let v = slots.var_of(k);
    if is_straight(k, e) {
        lower_into(alloc, e, slots, v, block)?;
        return Ok(false);
    }
    lower_into(alloc, e, slots, scratch, block)?;
    block.push(Stmt::Set(v, W::Var(scratch)))?;
    Ok(true)
}

// Appends the statements that set word k to the value of an expression. A choice that reads the word
// sets it in its branches. Says whether they use the variable `scratch`.
#[tactic(auto, using(crate::proofs::Appends::push_steps))]
fn set_word(
    alloc: Global,
    k: u32,
    e: &Expr,
    slots: &Slots,
    scratch: u32,
    block: &mut Stmts,
) -> Result<bool, NoMemory>
    requires word { k < length slots.now.rows }
    requires bound { IsTrue (is_bound (length slots.now.rows) (term_of e.now)) }
    requires temporaries { temps_of (term_of e.now) ≤ slots.now.temps }
    requires scratch { slots.now.next ≤ scratch }
    ensures block { OnOk result (Appends block.old block.new
        (word_block slots.now.rows slots.now.first_temp k scratch (term_of e.now))) }
    ensures used { IfOk result (λ used. used
        ≡ word_needs slots.now.rows slots.now.first_temp k scratch (term_of e.now)) }
{
    match e {
        Expr::If(c, a, b) if !is_whole(k, e, c) => {
            let branch = put_condition(alloc, c, slots, scratch, block)?;
            let mut on = Stmts::new(alloc);
            let on_used = set_word(alloc, k, a, slots, scratch, &mut on)?;
            let mut off = Stmts::new(alloc);
            let off_used = set_word(alloc, k, b, slots, scratch, &mut off)?;
            block.push(Stmt::If(Box::into_inner(branch.test), on, off))?;
            Ok(branch.used || (on_used || off_used))
        }
        _ => set_leaf(alloc, k, e, slots, scratch, block),
    }
}

// Sets word k so, and gives the variable behind those that it uses.
fn set_at_once(
    alloc: Global,
    k: u32,
    e: &Expr,
    slots: &Slots,
    next: u32,
    block: &mut Stmts,
) -> Result<u32, NoMemory>
    requires word { k < length slots.now.rows }
    requires bound { IsTrue (is_bound (length slots.now.rows) (term_of e.now)) }
    requires temporaries { temps_of (term_of e.now) ≤ slots.now.temps }
    requires free { slots.now.next ≤ next }
    requires room { word_next slots.now.rows slots.now.first_temp k (term_of e.now) next < 2 ^ 32 }
    ensures block { OnOk result (Appends block.old block.new
        (word_block slots.now.rows slots.now.first_temp k next (term_of e.now))) }
    ensures next { IfOk result (λ after. after
        ≡ word_next slots.now.rows slots.now.first_temp k (term_of e.now) next) }
{
    let used = set_word(alloc, k, e, slots, next, block)?;
    Ok(if used { next + 1 } else { next })
}

/// Appends the statements that set the words from word k on to the values of a row of expressions,
/// and gives the variable behind those that they use. A word that a later expression reads is set
/// once these are. Word k of `slots` is the first of the words; the variables that were never given
/// out are those from `next` on. The one error is `NoMemory`.
#[cycle(words)]
pub fn set_words(
    alloc: Global,
    k: u32,
    row: &[Expr],
    slots: &Slots,
    next: u32,
    block: &mut Stmts,
) -> Result<u32, NoMemory>
    requires { AreSettable slots.now k (terms_of row.now) next }
    ensures block { OnOk result (Appends block.old block.new
        (words_piece slots.now.rows slots.now.first_temp k (terms_of row.now) next).block) }
    ensures next { IfOk result (λ after. after
        ≡ (words_piece slots.now.rows slots.now.first_temp k (terms_of row.now) next).next) }
{
    match row {
        [] => Ok(next),
        [e, rest @ ..] => set_first(alloc, k, e, rest, slots, next, block),
    }
}

#[cycle(words)]
fn set_first(
    alloc: Global,
    k: u32,
    e: &Expr,
    rest: &[Expr],
    slots: &Slots,
    next: u32,
    block: &mut Stmts,
) -> Result<u32, NoMemory>
    requires { AreSettable slots.now k (term_of e.now ∷ terms_of rest.now) next }
    ensures block { OnOk result (Appends block.old block.new
        (words_piece slots.now.rows slots.now.first_temp k (term_of e.now ∷ terms_of rest.now)
        next).block) }
    ensures next { IfOk result (λ after. after
        ≡ (words_piece slots.now.rows slots.now.first_temp k (term_of e.now ∷ terms_of rest.now)
        next).next) }
{
    if is_word(k, e) {
        return set_words(alloc, k + 1, rest, slots, next, block);
    }
    if row_avoids(k, rest) {
        let next = set_at_once(alloc, k, e, slots, next, block)?;
        return set_words(alloc, k + 1, rest, slots, next, block);
    }
    let v = slots.var_of(k);
    lower_into(alloc, e, slots, next, block)?;
    let after = set_words(alloc, k + 1, rest, slots, next + 1, block)?;
    block.push(Stmt::Set(v, W::Var(next)))?;
    Ok(after)
}

/// Sets words so, with the variables that were never given out, and takes those that are used. The
/// one error is `NoMemory`.
pub fn put_words(
    alloc: Global,
    k: u32,
    row: &[Expr],
    slots: &mut Slots,
    block: &mut Stmts,
) -> Result<(), NoMemory>
    requires { AreSettable slots.old k (terms_of row.now) slots.old.next }
    ensures { OnOk result (Puts slots.old slots.new block.old block.new
        (words_piece slots.old.rows slots.old.first_temp k (terms_of row.now) slots.old.next)) }
{
    let after = set_words(alloc, k, row, slots, slots.next, block)?;
    slots.reserve_variables(after - slots.next);
    Ok(())
}
