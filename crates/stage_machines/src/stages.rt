//! A stage and what is below it, in one.

ghost use Rattle.std.specs.Prelude.{◌≡◌, ◌+◌, ◌-◌, ◌<◌, ◌^◌, IfOk, if◌then◌else◌};
ghost use Rattle.stateful_core.specs.CoreCopies.{action_of, actions_of};
ghost use Rattle.stateful_core.specs.CoreShapes.{action_locals, actions_locals};
ghost use Rattle.stateful_core.specs.CoreTerms.{StopUnless, join};
ghost use Rattle.stateful_core.specs.MostWords.{added_words};
ghost use Rattle.stateful_core.specs.StreamCores.{let_all};
ghost use Rattle.act_moves.specs.Renumbering.{renumber_row, move_actions};
ghost use Rattle.act_moves.specs.WordRoom.{number_in, most_in, RowReadsBelow, StayBelow};
ghost use Rattle.stage_machines.specs.MachineCopies.{machine_of, parts_of};
ghost use Rattle.stage_machines.specs.MachineParts.{machine_core};
ghost use Rattle.stage_machines.specs.StageMachine.{stage_machine, IsStageOver};

use crate::guards::join_guards;
use crate::machine::{Machine, Parts, boxed_machine};
use act_moves::{Halt, Room, push_moved, renumber, renumber_row};
use list_denotation::{both_rows, width};
use stateful_core::{Act, Acts, push_lets};
use std::alloc::Global;
use strm_num::{List, NoMemory};

/// Whether an act adds a local word.
fn adds_local(act: &Act) -> bool
    ensures { action_locals (action_of act.now) ≡ (if result then 1 else 0) }
{
    matches!(act, Act::Let(_) | Act::Read(_, _))
}

/// How many local words acts add.
#[tactic(auto, using(crate::proofs::MadeStages::local_steps))]
fn locals(acts: &Acts) -> u32
    requires { actions_locals (actions_of acts.now) < 2 ^ 32 }
    ensures { result ≡ actions_locals (actions_of acts.now) }
{
    let mut count = 0;
    for act in acts.as_slice() {
        if adds_local(act) {
            count += 1;
        }
    }
    count
}

/// The acts of the lower part, a local word for each word of its row, and the acts of the stage, whose
/// state stands `behind` words further on.
fn stage_acts(
    alloc: Global,
    lower: Parts<'_>,
    of_lower: Room,
    acts: &Acts,
    of_stage: Room,
    behind: u32,
) -> Result<Acts, NoMemory>
    requires lower { StayBelow (most_in of_lower) (2 ^ 32) (parts_of lower).acts }
    requires row { RowReadsBelow (most_in of_lower) (parts_of lower).item }
    requires stage { StayBelow (most_in of_stage) (2 ^ 32 - behind) (actions_of acts.now) }
    ensures { IfOk result (λ made. actions_of made
        ≡ join (move_actions (number_in of_lower) 0 StopUnless (parts_of lower.entry).acts)
        (let_all (renumber_row (number_in of_lower) (parts_of lower.entry).item)
        (move_actions (number_in of_stage) behind StopUnless (actions_of acts.now)))) }
{
    let row = renumber_row(alloc, lower.item, of_lower)?;
    let mut made = List::new(alloc);
    let first = lower.acts.as_slice();
    push_moved(alloc, first, of_lower, 0, Halt::Stop, &mut made)?;
    push_lets(alloc, &row, &mut made)?;
    let own = acts.as_slice();
    push_moved(alloc, own, of_stage, behind, Halt::Stop, &mut made)?;
    Ok(made)
}

/// The parts that take the turns of a stage and of what is below it, whose turns begin with a row of
/// so many words: none of a source or a machine. The one error is `NoMemory`.
pub fn stage_machine(
    alloc: Global,
    row: u32,
    lower: Parts<'_>,
    stage: Parts<'_>,
) -> Result<Box<Machine>, NoMemory>
    requires over { IsStageOver row (parts_of lower) (parts_of stage) }
    requires room { lower.scope + row + added_words (machine_core (parts_of lower))
        + added_words (machine_core (parts_of stage)) < 2 ^ 32 }
    ensures { IfOk result (λ made. machine_of made.value
        ≡ stage_machine row (parts_of lower.entry) (parts_of stage.entry)) }
{
    let states = width(lower.init);
    let own = width(stage.init);
    let of_lower = Room {
        at: lower.scope + states,
        by: own,
        then_at: 0,
        then_by: 0,
    };
    let of_guard = Room {
        at: lower.scope,
        by: states,
        then_at: 0,
        then_by: 0,
    };
    let of_stage = Room {
        at: lower.scope,
        by: states,
        then_at: lower.scope + states + own,
        then_by: row + locals(lower.acts),
    };
    let init = both_rows(alloc, lower.init, stage.init)?;
    let guard = renumber(alloc, stage.guard, of_guard)?;
    let below = renumber(alloc, lower.guard, of_lower)?;
    let guard = join_guards(alloc, guard, below)?;
    let acts = stage_acts(alloc, lower, of_lower, stage.acts, of_stage, states)?;
    let item = renumber_row(alloc, stage.item, of_stage)?;
    boxed_machine(alloc, lower.scope, init, guard, acts, item)
}
