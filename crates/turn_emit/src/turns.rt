//! The statements of a turn.

ghost use Rattle.std.specs.Prelude.{◌≡◌, ◌+◌, ◌<◌, ◌≤◌, ◌^◌, [], ◌∷◌, ◌++◌, ◌&&◌, length, slice_index};
ghost use Rattle.std.specs.Prelude.{None, IfOk, OnOk};
ghost use Rattle.list_denotation.specs.Copies.{term_of, terms_of};
ghost use Rattle.loop_ir.specs.StatementCopies.{block_of};
ghost use Rattle.expr_phrases.specs.PhraseCopies.{Appends};
ghost use Rattle.stateful_core.specs.CoreCopies.{action_of, actions_of};
ghost use Rattle.stateful_core.specs.CoreTerms.{Let, Read, Update, When, Cons};
ghost use Rattle.state_alloc.specs.Frames.{Takes};
ghost use Rattle.row_emit.specs.Placed.{Puts};
ghost use Rattle.turn_blocks.specs.TurnBlocks.{constant_truth, is_none, tested};
ghost use Rattle.turn_blocks.specs.WordUses.{never_go_on};
ghost use Rattle.turn_emit.specs.Turns.{held_of, piece_at, piece_of, test_piece_at, second_piece};
ghost use Rattle.turn_emit.specs.Turns.{rejoined_at, IsReadyAt, IsReady, IsReadable, FitsHeld};

use expr_lower::{lower_into, lower_operand, scopes_hold_expressions};
use expr_phrases::is_not_zero;
use list_denotation::Expr;
use loop_ir::{Stmt, Stmts, W};
use row_emit::{
    Stop, Tail, put_choice, put_stop, put_tail, put_words, set_words_take_later_variables,
};
use state_alloc::Slots;
use stateful_core::Act;
use std::alloc::Global;
use strm_num::NoMemory;
use word_uses::{LetUse, Place, let_use, may_wait, never_go_on};

/// Where the words of a turn stand, what is done with its row, and what ends the run where the
/// stream stops.
#[derive(Clone, Copy)]
pub struct Turn<'a> {
    pub place: Place,
    pub tail: Tail<'a>,
    pub stop: Stop<'a>,
}

// A choice of acts: those where the value of an expression is true, and else others.
#[derive(Clone, Copy)]
struct Choice<'a> {
    test: &'a Expr,
    on: &'a [Act],
    off: &'a [Act],
}

// The expression that a test looks at: the one that it waits for, where there is one, and else its
// own.
fn tested<'a>(held: Option<&'a Expr>, e: &'a Expr) -> &'a Expr
    ensures { term_of result.now ≡ tested (held_of held.entry) (term_of e.now) }
{
    match held {
        Some(held) => held,
        None => e,
    }
}

fn constant_truth(e: &Expr) -> Option<bool>
    ensures { result ≡ constant_truth (term_of e.now) }
{
    match e {
        Expr::Truth(b) => Some(*b),
        _ => None,
    }
}

// Whether acts lead nowhere, beside none.
#[tactic(auto, using(crate::proofs::ActPieces::none_same))]
fn leaves(acts: &[Act], others: &[Act]) -> bool
    ensures { result ≡ (is_none (actions_of others.now) && never_go_on (actions_of acts.now)) }
{
    others.is_empty() && never_go_on(acts)
}

// Appends the statements of acts, and of what is done with the row behind them. `held` is an
// expression of which the first act tests the value.
#[cycle(turn)]
fn put_acts(
    alloc: Global,
    acts: &[Act],
    held: Option<&Expr>,
    turn: Turn<'_>,
    slots: &mut Slots,
    block: &mut Stmts,
) -> Result<(), NoMemory>
    requires held { FitsHeld (length slots.old.rows) slots.old.temps (held_of held) }
    requires ready { IsReady turn (actions_of acts.now) slots.old }
    requires room { (piece_of turn (held_of held) (actions_of acts.now) slots.old).next < 2 ^ 32 }
    ensures { OnOk result (Puts slots.old slots.new block.old block.new (piece_of turn.entry
        (held_of held.entry) (actions_of acts.now) slots.old)) }
{
    match acts {
        [] => put_tail(alloc, turn.tail, slots, block),
        [act, rest @ ..] => put_act(alloc, act, held, rest, turn, slots, block),
    }
}

#[cycle(turn)]
fn put_act(
    alloc: Global,
    act: &Act,
    held: Option<&Expr>,
    rest: &[Act],
    turn: Turn<'_>,
    slots: &mut Slots,
    block: &mut Stmts,
) -> Result<(), NoMemory>
    requires held { FitsHeld (length slots.old.rows) slots.old.temps (held_of held) }
    requires ready { IsReady turn (Cons (action_of act.now) (actions_of rest.now)) slots.old }
    requires room { (piece_of turn (held_of held) (Cons (action_of act.now) (actions_of rest.now))
        slots.old).next < 2 ^ 32 }
    ensures { OnOk result (Puts slots.old slots.new block.old block.new (piece_of turn.entry
        (held_of held.entry) (Cons (action_of act.now) (actions_of rest.now)) slots.old)) }
{
    match act {
        Act::Let(e) => put_let(alloc, e, rest, turn, slots, block),
        Act::Read(a, e) => put_read(alloc, *a, e, rest, turn, slots, block),
        Act::KeepIf(e) => {
            let off = Stmts::new(alloc);
            put_test(alloc, tested(held, e), off, rest, turn, slots, block)
        }
        Act::StopUnless(e) => {
            let mut off = Stmts::new(alloc);
            put_stop(turn.stop, &mut off)?;
            put_test(alloc, tested(held, e), off, rest, turn, slots, block)
        }
        Act::Update(k, es) => put_update(alloc, *k, es.as_slice(), rest, turn, slots, block),
        Act::When(e, a, b) => {
            let choice = Choice {
                test: e,
                on: a.as_slice(),
                off: b.as_slice(),
            };
            put_when(alloc, choice, rest, turn, slots, block)
        }
    }
}

#[cycle(turn)]
fn put_let(
    alloc: Global,
    e: &Expr,
    rest: &[Act],
    turn: Turn<'_>,
    slots: &mut Slots,
    block: &mut Stmts,
) -> Result<(), NoMemory>
    requires ready { IsReady turn (Cons (Let (term_of e.now)) (actions_of rest.now)) slots.old }
    requires room { (piece_of turn None (Cons (Let (term_of e.now)) (actions_of rest.now))
        slots.old).next < 2 ^ 32 }
    ensures { OnOk result (Puts slots.old slots.new block.old block.new (piece_of turn.entry None
        (Cons (Let (term_of e.now)) (actions_of rest.now)) slots.old)) }
{
    match let_use(turn.place, turn.tail.width(), slots.rows.len(), e, rest) {
        LetUse::Tested => put_alias(alloc, 0, Some(e), rest, turn, slots, block),
        LetUse::Unused => put_alias(alloc, 0, None, rest, turn, slots, block),
        LetUse::Same(k) => put_alias(alloc, k, None, rest, turn, slots, block),
        LetUse::Own => {
            lower_into(alloc, e, slots, slots.next, block)?;
            put_bound(alloc, rest, turn, slots, block)
        }
    }
}

// The new word shares the variable of word k.
#[cycle(turn)]
fn put_alias(
    alloc: Global,
    k: u32,
    held: Option<&Expr>,
    rest: &[Act],
    turn: Turn<'_>,
    slots: &mut Slots,
    block: &mut Stmts,
) -> Result<(), NoMemory>
    requires word { k < length slots.old.rows }
    requires held { FitsHeld (length slots.old.rows) slots.old.temps (held_of held) }
    requires ready { IsReadyAt turn (actions_of rest.now) (slots.old.rows ++ slice_index
        slots.old.rows k ∷ []) slots.old.first_temp slots.old.temps slots.old.next }
    requires room { (piece_at turn (held_of held) (actions_of rest.now) (slots.old.rows ++
        slice_index slots.old.rows k ∷ []) slots.old.first_temp slots.old.next).next < 2 ^ 32 }
    ensures { OnOk result (Puts slots.old slots.new block.old block.new (piece_at turn.entry
        (held_of held.entry) (actions_of rest.now) (slots.old.rows ++ slice_index slots.old.rows k
        ∷ []) slots.old.first_temp slots.old.next)) }
{
    let v = slots.var_of(k);
    slots.alias(v)?;
    put_acts(alloc, rest, held, turn, slots, block)?;
    slots.unbind(1);
    Ok(())
}

// The new word has the first variable that was never given out.
#[cycle(turn)]
fn put_bound(
    alloc: Global,
    rest: &[Act],
    turn: Turn<'_>,
    slots: &mut Slots,
    block: &mut Stmts,
) -> Result<(), NoMemory>
    requires ready { IsReadyAt turn (actions_of rest.now) (slots.old.rows ++ slots.old.next ∷ [])
        slots.old.first_temp slots.old.temps (slots.old.next + 1) }
    requires room { (piece_at turn None (actions_of rest.now) (slots.old.rows ++ slots.old.next ∷
        []) slots.old.first_temp (slots.old.next + 1)).next < 2 ^ 32 }
    ensures { OnOk result (Puts slots.old slots.new block.old block.new (piece_at turn.entry None
        (actions_of rest.now) (slots.old.rows ++ slots.old.next ∷ []) slots.old.first_temp
        (slots.old.next + 1))) }
{
    set_words_take_later_variables();
    slots.bind(1)?;
    put_acts(alloc, rest, None, turn, slots, block)?;
    slots.unbind(1);
    Ok(())
}

#[cycle(turn)]
fn put_read(
    alloc: Global,
    a: u32,
    e: &Expr,
    rest: &[Act],
    turn: Turn<'_>,
    slots: &mut Slots,
    block: &mut Stmts,
) -> Result<(), NoMemory>
    requires ready { IsReady turn (Cons (Read a (term_of e.now)) (actions_of rest.now)) slots.old }
    requires room { (piece_of turn None (Cons (Read a (term_of e.now)) (actions_of rest.now))
        slots.old).next < 2 ^ 32 }
    ensures { OnOk result (Puts slots.old slots.new block.old block.new (piece_of turn.entry None
        (Cons (Read a (term_of e.now)) (actions_of rest.now)) slots.old)) }
{
    scopes_hold_expressions();
    let index = lower_operand(alloc, e, slots, slots.next, block)?;
    block.push(Stmt::Read(slots.next, a, Box::into_inner(index)))?;
    put_bound(alloc, rest, turn, slots, block)
}

// A test, what goes on where it holds, and else other statements. A constant is no test.
#[cycle(turn)]
fn put_test(
    alloc: Global,
    e: &Expr,
    off: Stmts,
    rest: &[Act],
    turn: Turn<'_>,
    slots: &mut Slots,
    block: &mut Stmts,
) -> Result<(), NoMemory>
    requires readable { IsReadable (length slots.old.rows) slots.old.temps (term_of e.now) }
    requires ready { IsReady turn (actions_of rest.now) slots.old }
    requires room { (test_piece_at turn (term_of e.now) (actions_of rest.now) slots.old.rows
        slots.old.first_temp slots.old.next (block_of off)).next < 2 ^ 32 }
    ensures { OnOk result (Puts slots.old slots.new block.old block.new (test_piece_at turn.entry
        (term_of e.now) (actions_of rest.now) slots.old.rows slots.old.first_temp slots.old.next
        (block_of off))) }
{
    set_words_take_later_variables();
    match constant_truth(e) {
        Some(true) => put_acts(alloc, rest, None, turn, slots, block),
        Some(false) => block.append(off),
        None => {
            let test = put_choice(alloc, e, slots, block)?;
            let mut on = Stmts::new(alloc);
            put_acts(alloc, rest, None, turn, slots, &mut on)?;
            block.push(Stmt::If(Box::into_inner(test), on, off))
        }
    }
}

// Words of the state are set before what follows, or behind it where they may wait.
#[cycle(turn)]
fn put_update(
    alloc: Global,
    k: u32,
    row: &[Expr],
    rest: &[Act],
    turn: Turn<'_>,
    slots: &mut Slots,
    block: &mut Stmts,
) -> Result<(), NoMemory>
    requires ready { IsReady turn (Cons (Update k (terms_of row.now)) (actions_of rest.now))
        slots.old }
    requires room { (piece_of turn None (Cons (Update k (terms_of row.now)) (actions_of rest.now))
        slots.old).next < 2 ^ 32 }
    ensures { OnOk result (Puts slots.old slots.new block.old block.new (piece_of turn.entry None
        (Cons (Update k (terms_of row.now)) (actions_of rest.now)) slots.old)) }
{
    set_words_take_later_variables();
    let first = turn.place.scope + k;
    if may_wait(turn.place, k, row, rest) {
        let mut late = Stmts::new(alloc);
        put_words(alloc, first, row, slots, &mut late)?;
        put_acts(alloc, rest, None, turn, slots, block)?;
        block.append(late)
    } else {
        put_words(alloc, first, row, slots, block)?;
        put_acts(alloc, rest, None, turn, slots, block)
    }
}

// Where one branch leads nowhere and the other one has no acts, what follows stands in that one.
#[cycle(turn)]
fn put_when(
    alloc: Global,
    choice: Choice<'_>,
    rest: &[Act],
    turn: Turn<'_>,
    slots: &mut Slots,
    block: &mut Stmts,
) -> Result<(), NoMemory>
    requires ready { IsReady turn (Cons (When (term_of choice.test.now) (actions_of choice.on.now)
        (actions_of choice.off.now)) (actions_of rest.now)) slots.old }
    requires room { (piece_of turn None (Cons (When (term_of choice.test.now) (actions_of
        choice.on.now) (actions_of choice.off.now)) (actions_of rest.now)) slots.old).next < 2 ^
        32 }
    ensures { OnOk result (Puts slots.old slots.new block.old block.new (piece_of turn.entry None
        (Cons (When (term_of choice.entry.test.now) (actions_of choice.entry.on.now) (actions_of
        choice.entry.off.now)) (actions_of rest.now)) slots.old)) }
{
    set_words_take_later_variables();
    let leaving = Turn {
        place: turn.place,
        tail: Tail::Nowhere,
        stop: turn.stop,
    };
    if leaves(choice.on, choice.off) {
        let test = put_choice(alloc, choice.test, slots, block)?;
        let (on, off) = put_pair(alloc, choice.on, leaving, rest, turn, slots)?;
        block.push(Stmt::If(Box::into_inner(test), on, off))
    } else if leaves(choice.off, choice.on) {
        let test = put_choice(alloc, choice.test, slots, block)?;
        let (off, on) = put_pair(alloc, choice.off, leaving, rest, turn, slots)?;
        block.push(Stmt::If(Box::into_inner(test), on, off))
    } else {
        put_rejoined(alloc, choice, rest, turn, slots, block)
    }
}

// The statements of acts, and those of others with the variables behind theirs.
#[cycle(turn)]
fn put_pair(
    alloc: Global,
    first: &[Act],
    first_turn: Turn<'_>,
    second: &[Act],
    second_turn: Turn<'_>,
    slots: &mut Slots,
) -> Result<(Stmts, Stmts), NoMemory>
    requires first { IsReady first_turn (actions_of first.now) slots.old }
    requires second { IsReady second_turn (actions_of second.now) slots.old }
    requires room { (second_piece first_turn (actions_of first.now) second_turn (actions_of
        second.now) slots.old.rows slots.old.first_temp slots.old.next).next < 2 ^ 32 }
    ensures first { IfOk result (λ made. block_of made.0 ≡ (piece_of first_turn.entry None
        (actions_of first.now) slots.old).block) }
    ensures second { IfOk result (λ made. block_of made.1 ≡ (second_piece first_turn.entry
        (actions_of first.now) second_turn.entry (actions_of second.now) slots.old.rows
        slots.old.first_temp slots.old.next).block) }
    ensures slots { OnOk result (Takes slots.old slots.new (second_piece first_turn.entry
        (actions_of first.now) second_turn.entry (actions_of second.now) slots.old.rows
        slots.old.first_temp slots.old.next).next) }
{
    set_words_take_later_variables();
    let mut made = Stmts::new(alloc);
    put_acts(alloc, first, None, first_turn, slots, &mut made)?;
    let mut more = Stmts::new(alloc);
    put_acts(alloc, second, None, second_turn, slots, &mut more)?;
    Ok((made, more))
}

// Where both branches may lead on, a variable tells whether they did.
#[cycle(turn)]
fn put_rejoined(
    alloc: Global,
    choice: Choice<'_>,
    rest: &[Act],
    turn: Turn<'_>,
    slots: &mut Slots,
    block: &mut Stmts,
) -> Result<(), NoMemory>
    requires ready { IsReady turn (Cons (When (term_of choice.test.now) (actions_of choice.on.now)
        (actions_of choice.off.now)) (actions_of rest.now)) slots.old }
    requires room { (rejoined_at turn (term_of choice.test.now) (actions_of choice.on.now)
        (actions_of choice.off.now) (actions_of rest.now) slots.old.rows slots.old.first_temp
        slots.old.next).next < 2 ^ 32 }
    ensures { OnOk result (Puts slots.old slots.new block.old block.new (rejoined_at turn.entry
        (term_of choice.entry.test.now) (actions_of choice.entry.on.now) (actions_of
        choice.entry.off.now) (actions_of rest.now) slots.old.rows slots.old.first_temp
        slots.old.next)) }
{
    set_words_take_later_variables();
    let v = slots.next;
    slots.reserve_variables(1);
    block.push(Stmt::Set(v, W::Const(0)))?;
    let marking = Turn {
        place: turn.place,
        tail: Tail::Mark(v),
        stop: turn.stop,
    };
    let test = put_choice(alloc, choice.test, slots, block)?;
    let (on, off) = put_pair(alloc, choice.on, marking, choice.off, marking, slots)?;
    block.push(Stmt::If(Box::into_inner(test), on, off))?;
    let mut behind = Stmts::new(alloc);
    put_acts(alloc, rest, None, turn, slots, &mut behind)?;
    let led_on = is_not_zero(alloc, W::Var(v))?;
    block.push(Stmt::If(Box::into_inner(led_on), behind, Stmts::new(alloc)))
}

/// Appends the statements of the acts of a turn, and of what is done with its row. Word k of `slots`
/// is word k of the acts: those of the scope, and then those of the state. The words that the acts
/// add are given up again, and their variables never given out anew.
///
/// The acts are sound, the temporaries are enough for all expressions, what is held stands in
/// variables that were given out, and the numbers of all variables fit 32 bits. The one error is
/// `NoMemory`, where memory is refused.
pub fn put_turn(
    alloc: Global,
    acts: &[Act],
    turn: Turn<'_>,
    slots: &mut Slots,
    block: &mut Stmts,
) -> Result<(), NoMemory>
    requires ready { IsReady turn (actions_of acts.now) slots.old }
    requires room { (piece_of turn None (actions_of acts.now) slots.old).next < 2 ^ 32 }
    ensures { OnOk result (Puts slots.old slots.new block.old block.new
        (piece_of turn.entry None (actions_of acts.now) slots.old)) }
{
    put_acts(alloc, acts, None, turn, slots, block)
}
