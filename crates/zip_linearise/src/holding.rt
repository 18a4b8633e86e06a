//! A machine that holds its row for another one.

ghost use Rattle.std.specs.Prelude.{◌≡◌, ◌+◌, ◌-◌, ◌<◌, ◌^◌, [], ◌∷◌, ◌++◌, length, IfOk, OnOk};
ghost use Rattle.list_denotation.specs.Copies.{terms_of};
ghost use Rattle.list_denotation.specs.Terms.{Lit};
ghost use Rattle.stateful_core.specs.CoreCopies.{actions_of};
ghost use Rattle.stateful_core.specs.CoreTerms.{StopUnless, Update, Nil, Cons, join};
ghost use Rattle.act_moves.specs.Renumbering.{renumber_row, move_actions};
ghost use Rattle.act_moves.specs.WordRoom.{number_in, most_in, RowReadsBelow, StayBelow};
ghost use Rattle.zip_linearise.specs.HeldRows.{zeros};

use act_moves::{Halt, Room, push_moved, renumber_row};
use list_denotation::{Expr, Exprs, push_copies, width};
use stage_machines::Machine;
use stateful_core::{Act, Acts};
use std::alloc::Global;
use strm_num::{List, NoMemory};

/// Appends so many zeros. The one error is `NoMemory`.
#[tactic(auto, using(crate::proofs::MadeRows::zero_steps))]
pub fn push_zeros(n: u32, made: &mut Exprs) -> Result<(), NoMemory>
    ensures { OnOk result (terms_of made.new ≡ terms_of made.old ++ zeros n) }
{
    for _i in 0..n {
        made.push(Expr::Lit(0))?;
    }
    Ok(())
}

/// The flag, a place for the row of a machine, and its state. The one error is `NoMemory`.
pub fn held_state(alloc: Global, m: &Machine) -> Result<Exprs, NoMemory>
    requires { length (terms_of m.now.item) < 2 ^ 32 }
    ensures { IfOk result (λ made. terms_of made
        ≡ Lit 0 ∷ (zeros (length (terms_of m.now.item)) ++ terms_of m.now.init)) }
{
    let mut made = List::new(alloc);
    made.push(Expr::Lit(0))?;
    push_zeros(width(&m.item), &mut made)?;
    push_copies(alloc, &m.init, &mut made)?;
    Ok(made)
}

/// Appends the acts of a machine, whose words have their numbers in a room, and the act that holds
/// its row behind the flag. The one error is `NoMemory`.
pub fn push_held(alloc: Global, m: &Machine, room: Room, made: &mut Acts) -> Result<(), NoMemory>
    requires row_few { length (terms_of m.now.item) + 1 < 2 ^ 32 }
    requires acts { StayBelow (most_in room) (2 ^ 32 - (1 + length (terms_of m.now.item)))
        (actions_of m.now.acts) }
    requires row { RowReadsBelow (most_in room) (terms_of m.now.item) }
    ensures { OnOk result (actions_of made.new ≡ join (actions_of made.old)
        (join (move_actions (number_in room) (1 + length (terms_of m.now.item)) StopUnless
        (actions_of m.now.acts))
        (Cons (Update 1 (renumber_row (number_in room) (terms_of m.now.item))) Nil))) }
{
    push_moved(
        alloc,
        m.acts.as_slice(),
        room,
        1 + width(&m.item),
        Halt::Stop,
        made,
    )?;
    made.push(Act::Update(1, renumber_row(alloc, &m.item, room)?))
}
