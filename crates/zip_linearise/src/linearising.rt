//! The machine of a core term.

ghost use Rattle.std.specs.Prelude.{◌≡◌, ◌+◌, ◌<◌, ◌^◌, IfOk, IsTrue};
ghost use Rattle.list_denotation.specs.Copies.{term_of, terms_of};
ghost use Rattle.stateful_core.specs.CoreCopies.{actions_of, core_term_of};
ghost use Rattle.stateful_core.specs.CoreShapes.{core_scope};
ghost use Rattle.stateful_core.specs.MostWords.{added_words};
ghost use Rattle.stateful_core.specs.WellFormed.{is_sound_core, is_well_formed};
ghost use Rattle.act_moves.specs.WordRoom.{StayBelow};
ghost use Rattle.stage_machines.specs.MachineCopies.{machine_of};
ghost use Rattle.stage_machines.specs.MachineParts.{machine_core, machine_from};
ghost use Rattle.zip_linearise.specs.MachinePromise.{IsMachineOf};
ghost use Rattle.zip_linearise.specs.LinearMachine.{linear_machine};

use crate::laws::laws_below;
use crate::nests::nest_machine;
use crate::zips::zip_machine;
use act_moves::{Halt, Room, push_moved};
use list_denotation::{Expr, Exprs, copies, copy};
use stage_machines::{Machine, Parts, boxed_machine, stage_machine};
use stateful_core::{Acts, Core};
use std::alloc::Global;
use strm_num::{List, NoMemory};

/// The machine of a `Lin` with these parts, which are copied.
fn lin_machine(
    alloc: Global,
    scope: u32,
    init: &Exprs,
    guard: &Expr,
    acts: &Acts,
    item: &Exprs,
) -> Result<Box<Machine>, NoMemory>
    requires { StayBelow (2 ^ 32) (2 ^ 32) (actions_of acts.now) }
    ensures { IfOk result (λ made. machine_of made.value
        ≡ machine_from scope (terms_of init.now) (term_of guard.now) (actions_of acts.now)
        (terms_of item.now)) }
{
    let no_room = Room {
        at: 0,
        by: 0,
        then_at: 0,
        then_by: 0,
    };
    let init = copies(alloc, init)?;
    let guard = copy(alloc, guard)?;
    let item = copies(alloc, item)?;
    let mut made = List::new(alloc);
    push_moved(alloc, acts.as_slice(), no_room, 0, Halt::Stop, &mut made)?;
    boxed_machine(alloc, scope, init, guard, made, item)
}

fn machine_at(alloc: Global, c: &Core) -> Result<Box<Machine>, NoMemory>
    requires sound { IsTrue (is_sound_core (core_term_of c.now)) }
    requires room { core_scope (core_term_of c.now) + added_words (core_term_of c.now) < 2 ^ 32 }
    ensures { IfOk result (λ made. machine_of made.value ≡ linear_machine (core_term_of c.now)) }
{
    laws_below();
    match c {
        Core::Lin {
            scope,
            init,
            guard,
            acts,
            item,
        } => lin_machine(alloc, *scope, init, guard, acts, item),
        Core::Tr {
            scope,
            of,
            init,
            guard,
            acts,
            item,
        } => {
            let below = machine_at(alloc, of)?;
            let stage = Parts {
                scope: *scope,
                init,
                guard,
                acts,
                item,
            };
            stage_machine(alloc, 0, below.parts(), stage)
        }
        Core::Nest { of, inner } => {
            let outer = machine_at(alloc, of)?;
            let inner = machine_at(alloc, inner)?;
            nest_machine(alloc, &outer, &inner)
        }
        Core::Zip { left, right } => {
            let left = machine_at(alloc, left)?;
            let right = machine_at(alloc, right)?;
            zip_machine(alloc, &left, &right)
        }
    }
}

/// The machine of a core term. One step of a machine is one turn
/// of the Lin with its parts. It is well formed, stands in the scope of the term, has rows as wide,
/// names no other input, and has at most as many words. At every bound n, what it gives in n steps
/// is as far as the rows of the term, and these are as far as what it gives in as many steps as the
/// term's work. The one error is `NoMemory`.
pub fn linearise(alloc: Global, c: &Core) -> Result<Machine, NoMemory>
    requires { IsTrue (is_well_formed (core_term_of c.now)) }
    ensures { IfOk result (λ m. IsMachineOf (core_term_of c.now) (machine_core (machine_of m))) }
{
    laws_below();
    Ok(Box::into_inner(machine_at(alloc, c)?))
}
