ghost use Rattle.std.specs.Prelude.{◌≡◌, ◌++◌, IfOk};
ghost use Rattle.list_denotation.specs.Copies.{term_of, terms_of};
ghost use Rattle.list_denotation.specs.Rows.{map_rows, filter_rows, take_rows, drop_rows, take_while_rows, scan_rows, zip_rows};
ghost use Rattle.list_denotation.specs.Values.{value, row_value};
ghost use Rattle.list_model.specs.Listed.{listed};

use crate::rows::{Ending, ListedRows, joined};
use expr_values::{row_value, value};
use list_denotation::{Expr, Exprs, Inputs, Words};
use std::alloc::Global;
use strm_num::{List, NoMemory};

/// What the expressions make of each row, up to the first trap.
#[tactic(auto, using(crate::proofs::StageRows::map_steps))]
pub fn map_rows(
    alloc: Global,
    of: &ListedRows,
    body: &Exprs,
    env: &Words,
    inputs: &Inputs,
) -> Result<ListedRows, NoMemory>
    ensures { IfOk result (λ d. listed d.rows d.ending
        ≡ map_rows (λ r. row_value (terms_of body.now) (env.now ++ r) inputs.now)
        (listed of.now.rows of.now.ending)) }
{
    let mut rows = List::new(alloc);
    for i in 0..of.rows.len() {
        let bound = joined(alloc, env, of.rows.get(i))?;
        let Some(row) = row_value(alloc, body, &bound, inputs)? else {
            return Ok(ListedRows {
                rows,
                ending: Ending::Trap,
            });
        };
        rows.push(row)?;
    }
    Ok(ListedRows {
        rows,
        ending: of.ending,
    })
}

/// The rows of which an expression is true, up to the first trap.
#[tactic(auto, using(crate::proofs::StageRows::filter_steps))]
pub fn filter_rows(
    alloc: Global,
    of: &ListedRows,
    e: &Expr,
    env: &Words,
    inputs: &Inputs,
) -> Result<ListedRows, NoMemory>
    ensures { IfOk result (λ d. listed d.rows d.ending
        ≡ filter_rows (λ r. value (term_of e.now) (env.now ++ r) inputs.now)
        (listed of.now.rows of.now.ending)) }
{
    let mut rows = List::new(alloc);
    for i in 0..of.rows.len() {
        let row = of.rows.get(i);
        let bound = joined(alloc, env, row)?;
        let Some(passes) = value(e, &bound, inputs) else {
            return Ok(ListedRows {
                rows,
                ending: Ending::Trap,
            });
        };
        if passes != 0 {
            rows.push(List::from_slice(alloc, row.as_slice())?)?;
        }
    }
    Ok(ListedRows {
        rows,
        ending: of.ending,
    })
}

/// The first `k` rows.
#[tactic(auto, using(crate::proofs::StageRows::take_steps))]
pub fn take_rows(of: ListedRows, k: u64) -> ListedRows
    ensures { listed result.rows result.ending ≡ take_rows k (listed of.rows of.ending) }
{
    let mut rows = of.rows;
    if rows.len() < k {
        return ListedRows {
            rows,
            ending: of.ending,
        };
    }
    'past: while rows.len() > k {
        rows.pop();
    }
    ListedRows {
        rows,
        ending: Ending::End,
    }
}

/// All rows but the first `k`.
#[tactic(auto, using(crate::proofs::StageRows::drop_steps))]
pub fn drop_rows(alloc: Global, of: &ListedRows, k: u64) -> Result<ListedRows, NoMemory>
    ensures { IfOk result (λ d. listed d.rows d.ending ≡ drop_rows k (listed of.now.rows of.now.ending)) }
{
    let mut rows = List::new(alloc);
    for i in k..of.rows.len() {
        rows.push(List::from_slice(alloc, of.rows.get(i).as_slice())?)?;
    }
    Ok(ListedRows {
        rows,
        ending: of.ending,
    })
}

/// The rows before the first of which an expression is false.
#[tactic(auto, using(crate::proofs::StageRows::take_while_steps))]
pub fn take_while_rows(
    alloc: Global,
    of: &ListedRows,
    e: &Expr,
    env: &Words,
    inputs: &Inputs,
) -> Result<ListedRows, NoMemory>
    ensures { IfOk result (λ d. listed d.rows d.ending
        ≡ take_while_rows (λ r. value (term_of e.now) (env.now ++ r) inputs.now)
        (listed of.now.rows of.now.ending)) }
{
    let mut rows = List::new(alloc);
    for i in 0..of.rows.len() {
        let row = of.rows.get(i);
        let bound = joined(alloc, env, row)?;
        let Some(passes) = value(e, &bound, inputs) else {
            return Ok(ListedRows {
                rows,
                ending: Ending::Trap,
            });
        };
        if passes == 0 {
            return Ok(ListedRows {
                rows,
                ending: Ending::End,
            });
        }
        rows.push(List::from_slice(alloc, row.as_slice())?)?;
    }
    Ok(ListedRows {
        rows,
        ending: of.ending,
    })
}

/// The state after each row, up to the first trap.
#[tactic(auto, using(crate::proofs::StageRows::scan_steps))]
pub fn scan_rows(
    alloc: Global,
    of: &ListedRows,
    mut state: Words,
    next: &Exprs,
    env: &Words,
    inputs: &Inputs,
) -> Result<ListedRows, NoMemory>
    ensures { IfOk result (λ d. listed d.rows d.ending
        ≡ scan_rows (λ state r. row_value (terms_of next.now) (env.now ++ (state ++ r)) inputs.now) state
        (listed of.now.rows of.now.ending)) }
{
    let mut rows = List::new(alloc);
    for i in 0..of.rows.len() {
        let own = joined(alloc, &state, of.rows.get(i))?;
        let bound = joined(alloc, env, &own)?;
        let Some(after) = row_value(alloc, next, &bound, inputs)? else {
            return Ok(ListedRows {
                rows,
                ending: Ending::Trap,
            });
        };
        rows.push(List::from_slice(alloc, after.as_slice())?)?;
        state = after;
    }
    Ok(ListedRows {
        rows,
        ending: of.ending,
    })
}

/// The rows of two lists side by side, up to the shorter length.
#[tactic(auto, using(crate::proofs::StageRows::zip_steps))]
pub fn zip_rows(
    alloc: Global,
    left: &ListedRows,
    right: &ListedRows,
) -> Result<ListedRows, NoMemory>
    ensures { IfOk result (λ d. listed d.rows d.ending
        ≡ zip_rows (listed left.now.rows left.now.ending) (listed right.now.rows right.now.ending)) }
{
    let mut rows = List::new(alloc);
    for i in 0..left.rows.len() {
        if i >= right.rows.len() {
            return Ok(ListedRows {
                rows,
                ending: right.ending,
            });
        }
        rows.push(joined(alloc, left.rows.get(i), right.rows.get(i))?)?;
    }
    Ok(ListedRows {
        rows,
        ending: left.ending,
    })
}
