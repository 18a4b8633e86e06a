ghost use Rattle.std.specs.Prelude.{◌≡◌, IfOk};
ghost use Rattle.list_denotation.specs.Copies.{terms_of};
ghost use Rattle.list_denotation.specs.Values.{row_value};
ghost use Rattle.expr_values.specs.Results.{got_of};

use crate::values::value;
use list_denotation::{Exprs, Inputs, Words};
use std::alloc::Global;
use strm_num::{List, NoMemory};

/// The row of several expressions over the bound words and the inputs, from left to right. None
/// where one of them traps.
#[tactic(auto, using(crate::proofs::RowValues::row_steps))]
pub fn row_value(
    alloc: Global,
    exprs: &Exprs,
    env: &Words,
    inputs: &Inputs,
) -> Result<Option<Words>, NoMemory>
    ensures { IfOk result (λ row. row_value (terms_of exprs.now) env.now inputs.now ≡ got_of row) }
{
    let mut row = List::new(alloc);
    for i in 0..exprs.len() {
        let Some(x) = value(exprs.get(i), env, inputs) else {
            return Ok(None);
        };
        row.push(x)?;
    }
    Ok(Some(row))
}
