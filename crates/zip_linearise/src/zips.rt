//! The machine of two machines side by side.

ghost use Rattle.std.specs.Prelude.{◌≡◌, ◌+◌, ◌-◌, ◌<◌, ◌^◌, [], ◌∷◌, ◌++◌, length, IfOk, OnOk, IsTrue};
ghost use Rattle.list_denotation.specs.Copies.{terms_of};
ghost use Rattle.list_denotation.specs.TermRows.{variables};
ghost use Rattle.list_denotation.specs.Terms.{Lit, Var};
ghost use Rattle.stateful_core.specs.CoreCopies.{actions_of};
ghost use Rattle.stateful_core.specs.CoreTerms.{StopUnless, Update, When, Cons, join};
ghost use Rattle.stateful_core.specs.MostWords.{added_words};
ghost use Rattle.stateful_core.specs.StreamCores.{set_state};
ghost use Rattle.stateful_core.specs.WellFormed.{is_sound_core};
ghost use Rattle.act_moves.specs.Flags.{skip_with};
ghost use Rattle.act_moves.specs.Renumbering.{renumber_row, move_actions};
ghost use Rattle.act_moves.specs.WordRoom.{number_in, most_in, RowReadsBelow, StayBelow};
ghost use Rattle.stage_machines.specs.MachineCopies.{machine_of};
ghost use Rattle.stage_machines.specs.MachineParts.{machine_core};
ghost use Rattle.zip_linearise.specs.HeldRows.{zeros};
ghost use Rattle.zip_linearise.specs.ZipMachine.{zip_machine};

use crate::guards::due_guard;
use crate::holding::{held_state, push_held};
use act_moves::{Halt, Room, push_flag, push_moved, push_skip, renumber, renumber_row};
use list_denotation::{Expr, Exprs, push_copies, variables, width};
use stage_machines::{Machine, boxed_machine};
use stateful_core::{Act, Acts};
use std::alloc::Global;
use strm_num::{List, NoMemory};

/// The state of the machine: that of the left one with its row, and that of the right one.
fn zip_state(alloc: Global, left: &Machine, right: &Machine) -> Result<Exprs, NoMemory>
    requires { length (terms_of left.now.item) < 2 ^ 32 }
    ensures { IfOk result (λ made. terms_of made
        ≡ Lit 0 ∷ (zeros (length (terms_of left.now.item)) ++ (terms_of left.now.init
        ++ terms_of right.now.init))) }
{
    let mut made = held_state(alloc, left)?;
    push_copies(alloc, &right.init, &mut made)?;
    Ok(made)
}

/// The acts of a turn of the left machine, whose row is held.
fn holding_acts(alloc: Global, left: &Machine, room: Room) -> Result<Acts, NoMemory>
    requires row_few { length (terms_of left.now.item) + 1 < 2 ^ 32 }
    requires acts { StayBelow (most_in room) (2 ^ 32 - (1 + length (terms_of left.now.item)))
        (actions_of left.now.acts) }
    requires row { RowReadsBelow (most_in room) (terms_of left.now.item) }
    ensures { IfOk result (λ made. actions_of made
        ≡ join (move_actions (number_in room) (1 + length (terms_of left.now.item)) StopUnless
        (actions_of left.now.acts))
        (Cons (Update 1 (renumber_row (number_in room) (terms_of left.now.item))) (skip_with 1))) }
{
    let mut made = List::new(alloc);
    push_held(alloc, left, room, &mut made)?;
    push_skip(alloc, 1, &mut made)?;
    Ok(made)
}

/// Appends the acts of a turn of the right machine, whose state begins at word `place` of the state,
/// and the act that makes the left one due.
fn push_right(
    alloc: Global,
    right: &Machine,
    room: Room,
    place: u32,
    made: &mut Acts,
) -> Result<(), NoMemory>
    requires { StayBelow (most_in room) (2 ^ 32 - place) (actions_of right.now.acts) }
    ensures { OnOk result (actions_of made.new ≡ join (actions_of made.old)
        (join (move_actions (number_in room) place StopUnless (actions_of right.now.acts))
        (set_state (Lit 0 ∷ [])))) }
{
    push_moved(alloc, right.acts.as_slice(), room, place, Halt::Stop, made)?;
    push_flag(alloc, 0, made)
}

/// The words of the row that is held from bound word k on, and those of another row.
fn joined_row(alloc: Global, k: u32, held: u32, item: &Exprs, room: Room) -> Result<Exprs, NoMemory>
    requires held { k + held < 2 ^ 32 }
    requires item { RowReadsBelow (most_in room) (terms_of item.now) }
    ensures { IfOk result (λ made. terms_of made
        ≡ variables k held ++ renumber_row (number_in room) (terms_of item.now)) }
{
    let mut made = variables(alloc, k, held)?;
    let row = renumber_row(alloc, item, room)?;
    push_copies(alloc, &row, &mut made)?;
    Ok(made)
}

/// The machine of two machines side by side, in one scope. The one error is `NoMemory`.
pub fn zip_machine(alloc: Global, left: &Machine, right: &Machine) -> Result<Box<Machine>, NoMemory>
    requires left { IsTrue (is_sound_core (machine_core (machine_of left.now))) }
    requires right { IsTrue (is_sound_core (machine_core (machine_of right.now))) }
    requires scope { right.now.scope ≡ left.now.scope }
    requires room { left.now.scope + added_words (machine_core (machine_of left.now))
        + added_words (machine_core (machine_of right.now)) + length (terms_of left.now.item) + 4
        < 2 ^ 32 }
    ensures { IfOk result (λ made. machine_of made.value
        ≡ zip_machine (machine_of left.now) (machine_of right.now)) }
{
    let row = width(&left.item);
    let place = 1 + row + width(&left.init);
    let of_left = Room {
        at: left.scope,
        by: 1 + row,
        then_at: left.scope + place,
        then_by: width(&right.init),
    };
    let of_right = Room {
        at: left.scope,
        by: place,
        then_at: 0,
        then_by: 0,
    };
    let init = zip_state(alloc, left, right)?;
    let right_guard = renumber(alloc, &right.guard, of_right)?;
    let left_guard = renumber(alloc, &left.guard, of_left)?;
    let guard = due_guard(alloc, left.scope, right_guard, left_guard)?;
    let holding = holding_acts(alloc, left, of_left)?;
    let mut acts = List::new(alloc);
    acts.push(Act::When(Expr::Var(left.scope), List::new(alloc), holding))?;
    push_right(alloc, right, of_right, place, &mut acts)?;
    let item = joined_row(alloc, left.scope + 1, row, &right.item, of_right)?;
    boxed_machine(alloc, left.scope, init, guard, acts, item)
}
