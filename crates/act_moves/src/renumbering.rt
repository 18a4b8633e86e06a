//! Other numbers for the words that expressions and acts read.

ghost use Rattle.std.specs.Prelude.{◌≡◌, ◌-◌, ◌^◌, ◌<◌, IfOk, OnOk};
ghost use Rattle.list_denotation.specs.Copies.{term_of, terms_of};
ghost use Rattle.stateful_core.specs.CoreCopies.{action_of, actions_of};
ghost use Rattle.stateful_core.specs.CoreTerms.{Nil, Cons, join};
ghost use Rattle.act_moves.specs.Halts.{halt_action};
ghost use Rattle.act_moves.specs.Renumbering.{renumber, renumber_row, move_action, move_actions};
ghost use Rattle.act_moves.specs.WordRoom.{number_in, most_in, ReadsBelow, RowReadsBelow, StaysBelow, StayBelow};

use crate::flags::push_close;
use list_denotation::{Expr, Exprs, boxed};
use stateful_core::{Act, Acts};
use std::alloc::Global;
use strm_num::{List, NoMemory};

/// Room for more words: for `by` of them from word `at` on, and then, in the numbers that words
/// have by that, for `then_by` from word `then_at` on.
#[derive(Clone, Copy)]
pub struct Room {
    pub at: u32,
    pub by: u32,
    pub then_at: u32,
    pub then_by: u32,
}

fn number_in(room: Room, k: u32) -> u32
    requires { k < most_in room }
    ensures { result ≡ number_in room k }
{
    let k = if k < room.at { k } else { k + room.by };
    if k < room.then_at {
        k
    } else {
        k + room.then_by
    }
}

/// The expression, with the numbers that its words have in a room. The one error is `NoMemory`.
pub fn renumber(alloc: Global, e: &Expr, room: Room) -> Result<Box<Expr>, NoMemory>
    requires { ReadsBelow (most_in room) (term_of e.now) }
    ensures { IfOk result (λ made. term_of made.value ≡ renumber (number_in room) (term_of e.now)) }
{
    match e {
        Expr::Lit(w) => boxed(alloc, Expr::Lit(*w)),
        Expr::Truth(b) => boxed(alloc, Expr::Truth(*b)),
        Expr::Var(k) => boxed(alloc, Expr::Var(number_in(room, *k))),
        Expr::Param(k) => boxed(alloc, Expr::Param(*k)),
        Expr::Len(k) => boxed(alloc, Expr::Len(*k)),
        Expr::Neg(a) => {
            let a = renumber(alloc, a, room)?;
            boxed(alloc, Expr::Neg(a))
        }
        Expr::Not(a) => {
            let a = renumber(alloc, a, room)?;
            boxed(alloc, Expr::Not(a))
        }
        Expr::Bin(op, a, b) => {
            let a = renumber(alloc, a, room)?;
            let b = renumber(alloc, b, room)?;
            boxed(alloc, Expr::Bin(*op, a, b))
        }
        Expr::And(a, b) => {
            let a = renumber(alloc, a, room)?;
            let b = renumber(alloc, b, room)?;
            boxed(alloc, Expr::And(a, b))
        }
        Expr::Or(a, b) => {
            let a = renumber(alloc, a, room)?;
            let b = renumber(alloc, b, room)?;
            boxed(alloc, Expr::Or(a, b))
        }
        Expr::If(c, a, b) => {
            let c = renumber(alloc, c, room)?;
            let a = renumber(alloc, a, room)?;
            let b = renumber(alloc, b, room)?;
            boxed(alloc, Expr::If(c, a, b))
        }
    }
}

/// The row, with the numbers that its words have in a room. The one error is `NoMemory`.
#[tactic(auto, using(crate::proofs::MadeRows::row_steps))]
pub fn renumber_row(alloc: Global, es: &Exprs, room: Room) -> Result<Exprs, NoMemory>
    requires { RowReadsBelow (most_in room) (terms_of es.now) }
    ensures { IfOk result (λ made. terms_of made ≡ renumber_row (number_in room) (terms_of es.now)) }
{
    let mut made = List::new(alloc);
    for i in 0..es.len() {
        made.push(Box::into_inner(renumber(alloc, es.get(i), room)?))?;
    }
    Ok(made)
}

/// What a StopUnless becomes: the same, or an act that closes an inner stream.
#[derive(Clone, Copy)]
pub enum Halt {
    Stop,
    Close,
}

/// Appends what a StopUnless of this test becomes.
#[tactic(auto, using(crate::proofs::MadeActs::flag_steps))]
fn push_halt(alloc: Global, halt: Halt, test: Box<Expr>, made: &mut Acts) -> Result<(), NoMemory>
    ensures { OnOk result (actions_of made.new
        ≡ join (actions_of made.old) (Cons (halt_action halt (term_of test.value)) Nil)) }
{
    match halt {
        Halt::Stop => made.push(Act::StopUnless(Box::into_inner(test))),
        Halt::Close => push_close(alloc, test, made),
    }
}

/// Appends acts, with the numbers that their words have in a room, and with their state `behind`
/// words further on. The one error is `NoMemory`.
#[cycle(moves)]
#[tactic(auto, using(crate::proofs::MadeActs::move_steps))]
pub fn push_moved(
    alloc: Global,
    acts: &[Act],
    room: Room,
    behind: u32,
    halt: Halt,
    made: &mut Acts,
) -> Result<(), NoMemory>
    requires { StayBelow (most_in room) (2 ^ 32 - behind) (actions_of acts.now) }
    ensures { OnOk result (actions_of made.new ≡ join (actions_of made.old)
        (move_actions (number_in room) behind (halt_action halt) (actions_of acts.now))) }
{
    for act in acts {
        push_moved_act(alloc, act, room, behind, halt, made)?;
    }
    Ok(())
}

#[cycle(moves)]
#[tactic(auto, using(crate::proofs::MadeActs::move_steps))]
fn push_moved_act(
    alloc: Global,
    act: &Act,
    room: Room,
    behind: u32,
    halt: Halt,
    made: &mut Acts,
) -> Result<(), NoMemory>
    requires { StaysBelow (most_in room) (2 ^ 32 - behind) (action_of act.now) }
    ensures { OnOk result (actions_of made.new ≡ join (actions_of made.old)
        (Cons (move_action (number_in room) behind (halt_action halt) (action_of act.now)) Nil)) }
{
    match act {
        Act::Let(e) => made.push(Act::Let(Box::into_inner(renumber(alloc, e, room)?))),
        Act::Read(k, e) => made.push(Act::Read(*k, Box::into_inner(renumber(alloc, e, room)?))),
        Act::KeepIf(e) => made.push(Act::KeepIf(Box::into_inner(renumber(alloc, e, room)?))),
        Act::StopUnless(e) => push_halt(alloc, halt, renumber(alloc, e, room)?, made),
        Act::Update(k, es) => made.push(Act::Update(behind + *k, renumber_row(alloc, es, room)?)),
        Act::When(e, a, b) => {
            let e = renumber(alloc, e, room)?;
            let mut first = List::new(alloc);
            push_moved(alloc, a.as_slice(), room, behind, halt, &mut first)?;
            let mut second = List::new(alloc);
            push_moved(alloc, b.as_slice(), room, behind, halt, &mut second)?;
            made.push(Act::When(Box::into_inner(e), first, second))
        }
    }
}
