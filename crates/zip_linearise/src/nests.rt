//! The machine of an outer machine and an inner one for each of its rows.

ghost use Rattle.std.specs.Prelude.{◌≡◌, ◌+◌, ◌-◌, ◌<◌, ◌^◌, [], ◌∷◌, ◌++◌, length, IfOk, OnOk, IsTrue};
ghost use Rattle.list_denotation.specs.Copies.{term_of, terms_of};
ghost use Rattle.list_denotation.specs.Terms.{Lit, Var};
ghost use Rattle.stateful_core.specs.CoreCopies.{actions_of};
ghost use Rattle.stateful_core.specs.CoreTerms.{StopUnless, Update, When, Cons, join};
ghost use Rattle.stateful_core.specs.MostWords.{added_words};
ghost use Rattle.stateful_core.specs.WellFormed.{is_sound_core};
ghost use Rattle.act_moves.specs.Flags.{skip_with, close_unless};
ghost use Rattle.act_moves.specs.Renumbering.{renumber, renumber_row, move_actions};
ghost use Rattle.act_moves.specs.WordRoom.{number_in, most_in, ReadsBelow, RowReadsBelow, StayBelow};
ghost use Rattle.stage_machines.specs.MachineCopies.{machine_of};
ghost use Rattle.stage_machines.specs.MachineParts.{machine_core};
ghost use Rattle.zip_linearise.specs.HeldRows.{zeros};
ghost use Rattle.zip_linearise.specs.NestMachine.{guarded_acts, nest_machine};

use crate::guards::flag_or;
use crate::holding::{held_state, push_held, push_zeros};
use act_moves::{Halt, Room, push_close, push_moved, push_skip, renumber, renumber_row};
use list_denotation::{Expr, Exprs, width};
use stage_machines::{Machine, boxed_machine, is_always};
use stateful_core::{Act, Acts};
use std::alloc::Global;
use strm_num::{List, NoMemory};

/// The state of the machine: that of the outer one with its row, and a place for the inner state.
fn nest_state(alloc: Global, outer: &Machine, inner: &Machine) -> Result<Exprs, NoMemory>
    requires row { length (terms_of outer.now.item) < 2 ^ 32 }
    requires inner { length (terms_of inner.now.init) < 2 ^ 32 }
    ensures { IfOk result (λ made. terms_of made
        ≡ Lit 0 ∷ (zeros (length (terms_of outer.now.item)) ++ (terms_of outer.now.init
        ++ zeros (length (terms_of inner.now.init))))) }
{
    let mut made = held_state(alloc, outer)?;
    push_zeros(width(&inner.init), &mut made)?;
    Ok(made)
}

/// The acts of a turn of the outer machine, which begin the inner state at word `place` of the state
/// where there is a row.
fn opening_acts(
    alloc: Global,
    outer: &Machine,
    of_outer: Room,
    inner: &Machine,
    of_inner: Room,
    place: u32,
) -> Result<Acts, NoMemory>
    requires row_few { length (terms_of outer.now.item) + 1 < 2 ^ 32 }
    requires acts { StayBelow (most_in of_outer) (2 ^ 32 - (1 + length (terms_of outer.now.item)))
        (actions_of outer.now.acts) }
    requires row { RowReadsBelow (most_in of_outer) (terms_of outer.now.item) }
    requires start { RowReadsBelow (most_in of_inner) (terms_of inner.now.init) }
    ensures { IfOk result (λ made. actions_of made
        ≡ join (move_actions (number_in of_outer) (1 + length (terms_of outer.now.item)) StopUnless
        (actions_of outer.now.acts))
        (Cons (Update 1 (renumber_row (number_in of_outer) (terms_of outer.now.item)))
        (Cons (Update place (renumber_row (number_in of_inner) (terms_of inner.now.init)))
        (skip_with 1)))) }
{
    let mut made = List::new(alloc);
    push_held(alloc, outer, of_outer, &mut made)?;
    made.push(Act::Update(place, renumber_row(alloc, &inner.init, of_inner)?))?;
    push_skip(alloc, 1, &mut made)?;
    Ok(made)
}

/// Appends the acts of a turn of the inner machine, whose state begins at word `place` of the state.
fn push_inner(
    alloc: Global,
    inner: &Machine,
    room: Room,
    place: u32,
    made: &mut Acts,
) -> Result<(), NoMemory>
    requires guard { ReadsBelow (most_in room) (term_of inner.now.guard) }
    requires acts { StayBelow (most_in room) (2 ^ 32 - place) (actions_of inner.now.acts) }
    ensures { OnOk result (actions_of made.new ≡ join (actions_of made.old)
        (guarded_acts (renumber (number_in room) (term_of inner.now.guard))
        (move_actions (number_in room) place close_unless (actions_of inner.now.acts)))) }
{
    if !is_always(&inner.guard) {
        push_close(alloc, renumber(alloc, &inner.guard, room)?, made)?;
    }
    push_moved(alloc, inner.acts.as_slice(), room, place, Halt::Close, made)
}

/// The machine of an outer machine and an inner one for each of its rows, in whose scope the row
/// stands. The one error is `NoMemory`.
pub fn nest_machine(
    alloc: Global,
    outer: &Machine,
    inner: &Machine,
) -> Result<Box<Machine>, NoMemory>
    requires outer { IsTrue (is_sound_core (machine_core (machine_of outer.now))) }
    requires inner { IsTrue (is_sound_core (machine_core (machine_of inner.now))) }
    requires scope { inner.now.scope ≡ outer.now.scope + length (terms_of outer.now.item) }
    requires room { outer.now.scope + added_words (machine_core (machine_of outer.now))
        + added_words (machine_core (machine_of inner.now)) + 7 < 2 ^ 32 }
    ensures { IfOk result (λ made. machine_of made.value
        ≡ nest_machine (machine_of outer.now) (machine_of inner.now)) }
{
    let row = width(&outer.item);
    let states = width(&outer.init);
    let place = 1 + row + states;
    let of_outer = Room {
        at: outer.scope,
        by: 1 + row,
        then_at: outer.scope + place,
        then_by: width(&inner.init),
    };
    let of_inner = Room {
        at: outer.scope,
        by: 1,
        then_at: outer.scope + 1 + row,
        then_by: states,
    };
    let init = nest_state(alloc, outer, inner)?;
    let guard = renumber(alloc, &outer.guard, of_outer)?;
    let guard = flag_or(alloc, outer.scope, guard)?;
    let opening = opening_acts(alloc, outer, of_outer, inner, of_inner, place)?;
    let mut acts = List::new(alloc);
    acts.push(Act::When(Expr::Var(outer.scope), List::new(alloc), opening))?;
    push_inner(alloc, inner, of_inner, place, &mut acts)?;
    let item = renumber_row(alloc, &inner.item, of_inner)?;
    boxed_machine(alloc, outer.scope, init, guard, acts, item)
}
