ghost use Rattle.std.specs.Prelude.{◌≡◌, ◌+◌, ◌<◌, ◌++◌, IfOk, OnOk};
ghost use Rattle.strm_num.specs.Words.{signed};
ghost use Rattle.list_denotation.specs.Copies.{term_of, terms_of, pipe_of};
ghost use Rattle.list_denotation.specs.Denotation.{count_of, denotation};
ghost use Rattle.list_denotation.specs.Rows.{unless_broken, take_rows, drop_rows, scan_rows, join_rows};
ghost use Rattle.list_denotation.specs.Values.{value, row_value};
ghost use Rattle.list_denotation.specs.Work.{stream_work, sum_over};
ghost use Rattle.list_model.specs.Listed.{listed};

use crate::fault::ModelFault;
use crate::rows::{Ending, ListedRows, joined, trapped};
use crate::sources::{open_array, open_range, open_unfold};
use crate::stages::{
    drop_rows, filter_rows, map_rows, scan_rows, take_rows, take_while_rows, zip_rows,
};
use expr_values::{row_value, value};
use list_denotation::{Expr, Exprs, Inputs, Stream, Words};
use std::alloc::Global;
use strm_num::{List, NoMemory, SIGN, Word};

/// The rows of a stream at a bound, in the scope of the bound words, with `room` for work, which
/// they take. `TooMuch` where their work is more.
#[cycle(streams)]
pub fn list_rows(
    alloc: Global,
    s: &Stream,
    env: &Words,
    inputs: &Inputs,
    n: u64,
    room: &mut u64,
) -> Result<ListedRows, ModelFault>
    ensures rows { IfOk result (λ d. listed d.rows d.ending ≡ denotation (pipe_of s.now) env.now inputs.now n) }
    ensures work { OnOk result (room.old ≡ stream_work (pipe_of s.now) env.now inputs.now n + room.new) }
    ensures too_much { result ≡ Err ModelFault.TooMuch
        → room.old < stream_work (pipe_of s.now) env.now inputs.now n }
{
    match s {
        Stream::Array(k) => open_array(alloc, *k, env, inputs, n, room),
        Stream::Range(low, high) => open_range(alloc, low, high, env, inputs, n, room),
        Stream::Unfold {
            seed,
            guard,
            item,
            next,
        } => open_unfold(alloc, seed, guard, item, next, env, inputs, n, room),
        Stream::Map(of, body) => {
            let of = list_rows(alloc, of, env, inputs, n, room)?;
            Ok(map_rows(alloc, &of, body, env, inputs)?)
        }
        Stream::Filter(of, e) => {
            let of = list_rows(alloc, of, env, inputs, n, room)?;
            Ok(filter_rows(alloc, &of, e, env, inputs)?)
        }
        Stream::Take(of, e) => {
            let of = list_rows(alloc, of, env, inputs, n, room)?;
            Ok(taken(alloc, of, e, env, inputs))
        }
        Stream::Drop(of, e) => {
            let of = list_rows(alloc, of, env, inputs, n, room)?;
            Ok(dropped(alloc, &of, e, env, inputs)?)
        }
        Stream::TakeWhile(of, e) => {
            let of = list_rows(alloc, of, env, inputs, n, room)?;
            Ok(take_while_rows(alloc, &of, e, env, inputs)?)
        }
        Stream::Scan { of, seed, next } => {
            let of = list_rows(alloc, of, env, inputs, n, room)?;
            Ok(scanned(alloc, &of, seed, next, env, inputs)?)
        }
        Stream::FlatMap(of, inner) => {
            let of = list_rows(alloc, of, env, inputs, n, room)?;
            join_rows(alloc, &of, inner, env, inputs, n, room)
        }
        Stream::Zip(left, right) => {
            let left = list_rows(alloc, left, env, inputs, n, room)?;
            let right = list_rows(alloc, right, env, inputs, n, room)?;
            Ok(zip_rows(alloc, &left, &right)?)
        }
    }
}

/// The inner rows of each row, one list behind another, up to the first that is cut off or traps.
/// Each inner stream that is opened takes its work from the room.
#[cycle(streams)]
#[tactic(auto, using(crate::proofs::InnerRows::inner_steps))]
fn join_rows(
    alloc: Global,
    of: &ListedRows,
    inner: &Stream,
    env: &Words,
    inputs: &Inputs,
    n: u64,
    room: &mut u64,
) -> Result<ListedRows, ModelFault>
    ensures rows { IfOk result (λ d. listed d.rows d.ending ≡ join_rows (listed of.now.rows of.now.ending)
        (λ r. denotation (pipe_of inner.now) (env.now ++ r) inputs.now n)) }
    ensures work { OnOk result (room.old ≡ sum_over (listed of.now.rows of.now.ending)
        (λ r. denotation (pipe_of inner.now) (env.now ++ r) inputs.now n)
        (λ r. stream_work (pipe_of inner.now) (env.now ++ r) inputs.now n) ◌+◌ 0 + room.new) }
    ensures too_much { result ≡ Err ModelFault.TooMuch → room.old < sum_over (listed of.now.rows of.now.ending)
        (λ r. denotation (pipe_of inner.now) (env.now ++ r) inputs.now n)
        (λ r. stream_work (pipe_of inner.now) (env.now ++ r) inputs.now n) ◌+◌ 0 }
{
    let mut rows = List::new(alloc);
    for i in 0..of.rows.len() {
        let bound = joined(alloc, env, of.rows.get(i))?;
        let part = list_rows(alloc, inner, &bound, inputs, n, room)?;
        rows.append(part.rows)?;
        if part.ending != Ending::End {
            return Ok(ListedRows {
                rows,
                ending: part.ending,
            });
        }
    }
    Ok(ListedRows {
        rows,
        ending: of.ending,
    })
}

/// The first rows, as many as an expression says.
fn taken(alloc: Global, of: ListedRows, e: &Expr, env: &Words, inputs: &Inputs) -> ListedRows
    ensures { listed result.rows result.ending ≡ unless_broken (value (term_of e.now) env.now inputs.now)
        (λ k. take_rows (count_of (signed k)) (listed of.rows of.ending)) }
{
    match value(e, env, inputs) {
        Some(k) => take_rows(of, count_of(k)),
        None => trapped(alloc),
    }
}

/// All rows but the first, of which an expression says how many.
fn dropped(
    alloc: Global,
    of: &ListedRows,
    e: &Expr,
    env: &Words,
    inputs: &Inputs,
) -> Result<ListedRows, NoMemory>
    ensures { IfOk result (λ d. listed d.rows d.ending
        ≡ unless_broken (value (term_of e.now) env.now inputs.now)
        (λ k. drop_rows (count_of (signed k)) (listed of.now.rows of.now.ending))) }
{
    match value(e, env, inputs) {
        Some(k) => drop_rows(alloc, of, count_of(k)),
        None => Ok(trapped(alloc)),
    }
}

/// The state after each row, from the row of the seed on.
fn scanned(
    alloc: Global,
    of: &ListedRows,
    seed: &Exprs,
    next: &Exprs,
    env: &Words,
    inputs: &Inputs,
) -> Result<ListedRows, NoMemory>
    ensures { IfOk result (λ d. listed d.rows d.ending
        ≡ unless_broken (row_value (terms_of seed.now) env.now inputs.now)
        (λ s. scan_rows (λ state r. row_value (terms_of next.now) (env.now ++ (state ++ r)) inputs.now) s
        (listed of.now.rows of.now.ending))) }
{
    let Some(state) = row_value(alloc, seed, env, inputs)? else {
        return Ok(trapped(alloc));
    };
    scan_rows(alloc, of, state, next, env, inputs)
}

/// The signed value of a word as a count, where one below zero counts as 0.
fn count_of(k: Word) -> u64
    ensures { result ≡ count_of (signed k) }
{
    if k < SIGN { k } else { 0 }
}
