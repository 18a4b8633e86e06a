ghost use Rattle.std.specs.Prelude.{◌≡◌, ◌+◌, ◌≤◌, ◌<◌, ◌++◌, length, slice_get, IfOk, OnOk, ◌-ℤ◌};
ghost use Rattle.strm_num.specs.Words.{signed};
ghost use Rattle.list_denotation.specs.Copies.{term_of, terms_of};
ghost use Rattle.list_denotation.specs.Denotation.{count_of, words_between, denotation};
ghost use Rattle.list_denotation.specs.Inputs.{items_in};
ghost use Rattle.list_denotation.specs.Rows.{firsts, single_rows, unfold_rows};
ghost use Rattle.list_denotation.specs.Terms.{Array, Range, Unfold};
ghost use Rattle.list_denotation.specs.Values.{value, row_value};
ghost use Rattle.list_denotation.specs.Work.{stream_work};
ghost use Rattle.list_model.specs.Listed.{listed};

use crate::fault::ModelFault;
use crate::rows::{Ending, ListedRows, joined, single, trapped};
use expr_values::{row_value, value};
use list_denotation::{Expr, Exprs, Input, Inputs, Words};
use std::alloc::Global;
use strm_num::{List, NoMemory, Word, less_signed};

/// Opens an array, with `room` for work: each row takes 1 of it, and the opening too.
pub fn open_array(
    alloc: Global,
    k: u32,
    env: &Words,
    inputs: &Inputs,
    n: u64,
    room: &mut u64,
) -> Result<ListedRows, ModelFault>
    ensures rows { IfOk result (λ d. listed d.rows d.ending ≡ denotation (Array k) env.now inputs.now n) }
    ensures work { OnOk result (room.old ≡ stream_work (Array k) env.now inputs.now n + room.new) }
    ensures too_much { result ≡ Err ModelFault.TooMuch → room.old < stream_work (Array k) env.now inputs.now n }
{
    let rows = array_rows(alloc, inputs, k, n.min(*room))?;
    opened(rows, room)
}

/// Opens a range, with `room` for work.
pub fn open_range(
    alloc: Global,
    low: &Expr,
    high: &Expr,
    env: &Words,
    inputs: &Inputs,
    n: u64,
    room: &mut u64,
) -> Result<ListedRows, ModelFault>
    ensures rows { IfOk result (λ d. listed d.rows d.ending
        ≡ denotation (Range (term_of low.now) (term_of high.now)) env.now inputs.now n) }
    ensures work { OnOk result (room.old
        ≡ stream_work (Range (term_of low.now) (term_of high.now)) env.now inputs.now n + room.new) }
    ensures too_much { result ≡ Err ModelFault.TooMuch
        → room.old < stream_work (Range (term_of low.now) (term_of high.now)) env.now inputs.now n }
{
    let rows = range_rows(alloc, low, high, env, inputs, n.min(*room))?;
    opened(rows, room)
}

/// Opens an unfold, with `room` for work.
pub fn open_unfold(
    alloc: Global,
    seed: &Exprs,
    guard: &Expr,
    item: &Exprs,
    next: &Exprs,
    env: &Words,
    inputs: &Inputs,
    n: u64,
    room: &mut u64,
) -> Result<ListedRows, ModelFault>
    ensures rows { IfOk result (λ d. listed d.rows d.ending
        ≡ denotation (Unfold (terms_of seed.now) (term_of guard.now) (terms_of item.now) (terms_of next.now))
        env.now inputs.now n) }
    ensures work { OnOk result (room.old
        ≡ stream_work (Unfold (terms_of seed.now) (term_of guard.now) (terms_of item.now) (terms_of next.now))
        env.now inputs.now n + room.new) }
    ensures too_much { result ≡ Err ModelFault.TooMuch → room.old
        < stream_work (Unfold (terms_of seed.now) (term_of guard.now) (terms_of item.now) (terms_of next.now))
        env.now inputs.now n }
{
    let rows = unfold_rows(alloc, seed, guard, item, next, env, inputs, n.min(*room))?;
    opened(rows, room)
}

/// The rows of a source that is opened where there is room for them, which the opening takes.
fn opened(rows: ListedRows, room: &mut u64) -> Result<ListedRows, ModelFault>
    ensures same { IfOk result (λ d. d ≡ rows) }
    ensures work { OnOk result (room.old ≡ (length rows.rows + 1) + room.new) }
    ensures too_much { result ≡ Err ModelFault.TooMuch → room.old ≤ length rows.rows }
{
    let taken = rows.rows.len();
    if *room <= taken {
        return Err(ModelFault::TooMuch);
    }
    *room -= taken + 1;
    Ok(rows)
}

/// The first `n` items of array input `k`.
fn array_rows(alloc: Global, inputs: &Inputs, k: u32, n: u64) -> Result<ListedRows, NoMemory>
    ensures { IfOk result (λ d. listed d.rows d.ending
        ≡ firsts n (single_rows (items_in (slice_get inputs.now k)))) }
{
    let k = u64::from(k);
    if k < inputs.len() {
        if let Input::Array(items) = inputs.get(k) {
            return first_rows(alloc, items, n);
        }
    }
    Ok(ListedRows {
        rows: List::new(alloc),
        ending: Ending::End,
    })
}

/// The first `n` of these words, each as a row.
#[tactic(auto, using(crate::proofs::SourceRows::first_steps))]
fn first_rows(alloc: Global, items: &Words, n: u64) -> Result<ListedRows, NoMemory>
    ensures { IfOk result (λ d. listed d.rows d.ending ≡ firsts n (single_rows items.now)) }
{
    let mut rows = List::new(alloc);
    for i in 0..items.len() {
        if i >= n {
            return Ok(ListedRows {
                rows,
                ending: Ending::Cut,
            });
        }
        rows.push(single(alloc, *items.get(i))?)?;
    }
    Ok(ListedRows {
        rows,
        ending: Ending::End,
    })
}

/// The first `n` numbers from one expression's value up to but without another's.
fn range_rows(
    alloc: Global,
    low: &Expr,
    high: &Expr,
    env: &Words,
    inputs: &Inputs,
    n: u64,
) -> Result<ListedRows, NoMemory>
    ensures { IfOk result (λ d. listed d.rows d.ending
        ≡ denotation (Range (term_of low.now) (term_of high.now)) env.now inputs.now n) }
{
    let Some(low) = value(low, env, inputs) else {
        return Ok(trapped(alloc));
    };
    let Some(high) = value(high, env, inputs) else {
        return Ok(trapped(alloc));
    };
    words_between(alloc, low, high, n)
}

/// The first `n` words from one up to but without another, by their signed values.
#[tactic(auto, using(crate::proofs::SourceRows::range_steps))]
fn words_between(alloc: Global, low: Word, high: Word, n: u64) -> Result<ListedRows, NoMemory>
    ensures { IfOk result (λ d. listed d.rows d.ending ≡ firsts n (single_rows (words_between low high))) }
{
    let mut rows = List::new(alloc);
    let count = distance(low, high);
    let mut x = low;
    for i in 0..count {
        if i >= n {
            return Ok(ListedRows {
                rows,
                ending: Ending::Cut,
            });
        }
        rows.push(single(alloc, x)?)?;
        x = x.wrapping_add(1);
    }
    Ok(ListedRows {
        rows,
        ending: Ending::End,
    })
}

/// How many words there are from one up to but without another.
fn distance(low: Word, high: Word) -> u64
    ensures { result ≡ count_of (signed high -ℤ signed low) }
{
    if less_signed(low, high) {
        high.wrapping_sub(low)
    } else {
        0
    }
}

/// The first `n` items of an unfold.
fn unfold_rows(
    alloc: Global,
    seed: &Exprs,
    guard: &Expr,
    item: &Exprs,
    next: &Exprs,
    env: &Words,
    inputs: &Inputs,
    n: u64,
) -> Result<ListedRows, NoMemory>
    ensures { IfOk result (λ d. listed d.rows d.ending
        ≡ denotation (Unfold (terms_of seed.now) (term_of guard.now) (terms_of item.now) (terms_of next.now))
        env.now inputs.now n) }
{
    let Some(state) = row_value(alloc, seed, env, inputs)? else {
        return Ok(trapped(alloc));
    };
    unfold_from(alloc, state, guard, item, next, env, inputs, n)
}

/// The first `n` items of the states from one on, while the guard holds.
#[tactic(auto, using(crate::proofs::SourceRows::unfold_steps))]
fn unfold_from(
    alloc: Global,
    mut state: Words,
    guard: &Expr,
    item: &Exprs,
    next: &Exprs,
    env: &Words,
    inputs: &Inputs,
    n: u64,
) -> Result<ListedRows, NoMemory>
    ensures { IfOk result (λ d. listed d.rows d.ending
        ≡ unfold_rows (λ s. value (term_of guard.now) (env.now ++ s) inputs.now)
        (λ s. row_value (terms_of item.now) (env.now ++ s) inputs.now)
        (λ s. row_value (terms_of next.now) (env.now ++ s) inputs.now) n state) }
{
    let mut rows = List::new(alloc);
    let mut left = n;
    'states: loop {
        let bound = joined(alloc, env, &state)?;
        let Some(goes_on) = value(guard, &bound, inputs) else {
            return Ok(ListedRows {
                rows,
                ending: Ending::Trap,
            });
        };
        if goes_on == 0 {
            return Ok(ListedRows {
                rows,
                ending: Ending::End,
            });
        }
        if left == 0 {
            return Ok(ListedRows {
                rows,
                ending: Ending::Cut,
            });
        }
        let Some(row) = row_value(alloc, item, &bound, inputs)? else {
            return Ok(ListedRows {
                rows,
                ending: Ending::Trap,
            });
        };
        let Some(after) = row_value(alloc, next, &bound, inputs)? else {
            return Ok(ListedRows {
                rows,
                ending: Ending::Trap,
            });
        };
        rows.push(row)?;
        state = after;
        left -= 1;
    }
}
