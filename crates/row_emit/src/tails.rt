//! What is done with the row of a turn, and the end of a run where a stream stops.

ghost use Rattle.std.specs.Prelude.{◌≡◌, ◌<◌, ◌≤◌, ◌^◌, ◌++◌, length, slice_index};
ghost use Rattle.std.specs.Prelude.{All, EachIndex, IfOk, OnOk};
ghost use Rattle.list_denotation.specs.Copies.{terms_of};
ghost use Rattle.state_alloc.specs.Layouts.{IsWordVariable};
ghost use Rattle.expr_phrases.specs.PhraseCopies.{Appends};
ghost use Rattle.turn_blocks.specs.Consumers.{print_block, fold_tail};
ghost use Rattle.turn_blocks.specs.Pieces.{last};
ghost use Rattle.row_emit.specs.Readiness.{FitsFold, FitsTail};
ghost use Rattle.row_emit.specs.Placed.{Puts};
ghost use Rattle.row_emit.specs.TurnCopies.{stop_of, stop_vars, tail_of, tail_width};

use crate::state_words::set_words;
use list_denotation::Expr;
use loop_ir::{Stmt, Stmts, Verdict, W, Words};
use state_alloc::Slots;
use std::alloc::Global;
use strm_num::{NoMemory, Word};

/// What ends a run where its stream stops: `return 0`, and before it, of a fold, the words that it
/// holds are printed, which stand in these variables.
#[derive(Clone, Copy)]
pub enum Stop<'a> {
    Print,
    Fold(&'a [Word]),
}

/// Appends the statements that print a row of words, which stand in these variables. The one error
/// is `NoMemory`.
#[tactic(auto, using(crate::proofs::PrintedRows::print_steps))]
pub fn put_row(vars: &[Word], block: &mut Stmts) -> Result<(), NoMemory>
    requires { EachIndex vars.now (λ i. slice_index vars.now i < 2 ^ 32) }
    ensures { OnOk result (Appends block.old block.new (print_block vars.now)) }
{
    for v in vars {
        block.push(Stmt::Emit(W::Var(*v as u32)))?;
    }
    block.push(Stmt::EndRow)
}

/// Appends the statements that end the run where the stream stops. The one error is `NoMemory`.
#[tactic(auto, using(crate::proofs::Appends::push_steps))]
pub fn put_stop(stop: Stop<'_>, block: &mut Stmts) -> Result<(), NoMemory>
    requires { EachIndex (stop_vars stop) (λ i. slice_index (stop_vars stop) i < 2 ^ 32) }
    ensures { OnOk result (Appends block.old block.new (stop_of stop.entry)) }
{
    if let Stop::Fold(vars) = stop {
        put_row(vars, block)?;
    }
    block.push(Stmt::Ret(Verdict::Done))
}

/// What is done with the row of a turn, which is the last local words: it is printed; or it is folded
/// into the words that stand in `vars`, by an expression for each, over these and the row; or a
/// variable is set to 1, which tells that the acts led on; or nothing, since they don't.
#[derive(Clone, Copy)]
pub enum Tail<'a> {
    Print(u32),
    Fold {
        vars: &'a [Word],
        next: &'a [Expr],
        width: u32,
    },
    Mark(u32),
    Nowhere,
}

impl Tail<'_> {
    /// The number of words of the row.
    pub fn width(self) -> u32
        ensures { result ≡ tail_width self.entry }
    {
        match self {
            Tail::Print(width) | Tail::Fold { width, .. } => width,
            Tail::Mark(_) | Tail::Nowhere => 0,
        }
    }
}

// The last of these words.
fn last(rows: &[Word], width: u32) -> &[Word]
    requires { width ≤ length rows.now }
    ensures { result.now ≡ last width rows.now }
{
    &rows[rows.len() - width as usize..]
}

// The words that the expressions of a fold read: those that it holds, and those of the row.
#[tactic(auto, using(crate::proofs::Variables::fold_laid_out))]
fn fold_scope(alloc: Global, vars: &[Word], width: u32, slots: &Slots) -> Result<Slots, NoMemory>
    requires width { width ≤ length slots.now.rows }
    requires given { All (IsWordVariable slots.now.first_temp slots.now.temps slots.now.next)
        vars.now }
    ensures rows { IfOk result (λ scope. scope.rows ≡ vars.now ++ last width slots.now.rows) }
    ensures first_temp { IfOk result (λ scope. scope.first_temp ≡ slots.now.first_temp) }
    ensures temps { IfOk result (λ scope. scope.temps ≡ slots.now.temps) }
    ensures next { IfOk result (λ scope. scope.next ≡ slots.now.next) }
{
    let mut rows = Words::from_slice(alloc, vars)?;
    rows.append(Words::from_slice(alloc, last(slots.rows.as_slice(), width))?)?;
    Ok(Slots {
        rows,
        first_temp: slots.first_temp,
        temps: slots.temps,
        next: slots.next,
    })
}

fn put_fold(
    alloc: Global,
    vars: &[Word],
    next: &[Expr],
    width: u32,
    slots: &mut Slots,
    block: &mut Stmts,
) -> Result<(), NoMemory>
    requires width { width ≤ length slots.old.rows }
    requires fold { FitsFold slots.old.first_temp slots.old.temps slots.old.next vars.now width
        (terms_of next.now) }
    requires room { ((fold_tail vars.now slots.old.first_temp width (terms_of next.now)).piece
        (last width slots.old.rows) slots.old.next).next < 2 ^ 32 }
    ensures { OnOk result (Puts slots.old slots.new block.old block.new
        ((fold_tail vars.now slots.old.first_temp width (terms_of next.now)).piece
        (last width slots.old.rows) slots.old.next)) }
{
    let scope = fold_scope(alloc, vars, width, slots)?;
    let after = set_words(alloc, 0, next, &scope, slots.next, block)?;
    slots.reserve_variables(after - slots.next);
    Ok(())
}

/// Appends the statements of what is done with the row. The one error is `NoMemory`.
#[tactic(auto, using(crate::proofs::Appends::push_steps))]
pub fn put_tail(
    alloc: Global,
    tail: Tail<'_>,
    slots: &mut Slots,
    block: &mut Stmts,
) -> Result<(), NoMemory>
    requires width { tail_width tail ≤ length slots.old.rows }
    requires tail { FitsTail slots.old.first_temp slots.old.temps slots.old.next tail }
    requires room { ((tail_of slots.old.first_temp tail).piece
        (last (tail_width tail) slots.old.rows) slots.old.next).next < 2 ^ 32 }
    ensures { OnOk result (Puts slots.old slots.new block.old block.new
        ((tail_of slots.old.first_temp tail.entry).piece
        (last (tail_width tail.entry) slots.old.rows) slots.old.next)) }
{
    match tail {
        Tail::Print(width) => put_row(last(slots.rows.as_slice(), width), block),
        Tail::Fold { vars, next, width } => put_fold(alloc, vars, next, width, slots, block),
        Tail::Mark(v) => block.push(Stmt::Set(v, W::Const(1))),
        Tail::Nowhere => Ok(()),
    }
}
