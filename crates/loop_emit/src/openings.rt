//! The statements that open a state.

ghost use Rattle.std.specs.Prelude.{◌≡◌, ◌+◌, ◌<◌, ◌≤◌, ◌^◌, [], length, IsTrue, OnOk};
ghost use Rattle.list_denotation.specs.Copies.{terms_of};
ghost use Rattle.list_denotation.specs.Scopes.{all_bound};
ghost use Rattle.expr_phrases.specs.PhraseCopies.{Appends};
ghost use Rattle.turn_blocks.specs.Temporaries.{row_temps};
ghost use Rattle.loop_emit.specs.Emission.{openings};

use expr_lower::lower_into;
use list_denotation::Exprs;
use loop_ir::Stmts;
use state_alloc::Slots;
use std::alloc::Global;
use strm_num::NoMemory;

/// Appends the statements that put the value of each of these expressions into a variable, from the
/// variable `first` on. They read no bound word: the scope `slots` has none, and its temporaries
/// are the first variables. The one error is `NoMemory`.
#[tactic(auto, using(list_denotation::proofs::MadeRows::terms_length, crate::proofs::Appends::opens_end))]
pub fn put_openings(
    alloc: Global,
    es: &Exprs,
    slots: &Slots,
    first: u32,
    block: &mut Stmts,
) -> Result<(), NoMemory>
    requires no_words { slots.now.rows ≡ [] }
    requires first_temp { slots.now.first_temp ≡ 0 }
    requires bound { IsTrue (all_bound 0 (terms_of es.now)) }
    requires temporaries { row_temps (terms_of es.now) ≤ slots.now.temps }
    requires room { first + length (terms_of es.now) < 2 ^ 32 }
    ensures { OnOk result (Appends block.old block.new (openings (terms_of es.now) first)) }
{
    for i in 0..es.len() {
        lower_into(alloc, es.get(i), slots, first + i as u32, block)?;
    }
    Ok(())
}
