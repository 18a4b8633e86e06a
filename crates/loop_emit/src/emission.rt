//! The loop program of a pipeline.

ghost use Rattle.std.specs.Prelude.{◌≡◌, ℕ, ◌+◌, ◌<◌, ◌^◌, length, IfOk, OnOk};
ghost use Rattle.std.specs.List.{range_with_len};
ghost use Rattle.list_denotation.specs.Copies.{term_of, terms_of, finish_of};
ghost use Rattle.list_denotation.specs.Pipelines.{pipeline_of};
ghost use Rattle.loop_ir.specs.Routines.{routine_of};
ghost use Rattle.loop_ir.specs.Statements.{join};
ghost use Rattle.loop_ir.specs.StatementCopies.{block_of, routine_from};
ghost use Rattle.loop_ir.specs.WellFormed.{IsWellFormed};
ghost use Rattle.expr_phrases.specs.PhraseCopies.{Appends};
ghost use Rattle.stateful_core.specs.CoreCopies.{actions_of, core_term_of};
ghost use Rattle.loop_emit.specs.CoreCondition.{IsCoreFor};
ghost use Rattle.loop_emit.specs.Emission.{held_count, finish_openings, openings, machine_temps, held_vars};
ghost use Rattle.loop_emit.specs.Emission.{turn_piece, machine_loop};
ghost use Rattle.loop_emit.specs.EmissionRoom.{HasRoom, IsTurnFor, IsStateScope, IsBodyOf};
ghost use Rattle.headline.specs.Headline.{IsEmitted};

use crate::laws::laws_below;
use crate::loops::put_loop;
use crate::openings::put_openings;
use crate::terminals::{
    finish_temps, held_count, put_ending, put_finish_openings, turn_for, width,
};
use dead_code::without_dead_code;
use expr_lower::temps_of;
use list_denotation::{Program, Terminal};
use loop_ir::{Prog, Stmts};
use state_alloc::Slots;
use stateful_core::{Core, push_lets};
use std::alloc::Global;
use strm_num::{List, NoMemory, Word};
use turn_emit::Turn;
use word_uses::{acts_temps, row_temps};
use zip_linearise::{Machine, linearise};

// The temporaries of all expressions of a machine and of a terminal.
fn machine_temps(m: &Machine, t: &Terminal) -> u32
    requires { machine_temps (terms_of m.now.init) (term_of m.now.guard) (actions_of m.now.acts)
        (terms_of m.now.item) (finish_of t.now) < 2 ^ 32 }
    ensures { result ≡ machine_temps (terms_of m.now.init) (term_of m.now.guard)
        (actions_of m.now.acts) (terms_of m.now.item) (finish_of t.now) }
{
    let rows = row_temps(m.item.as_slice()).max(finish_temps(t));
    let turn = temps_of(&m.guard).max(acts_temps(m.acts.as_slice()).max(rows));
    row_temps(m.init.as_slice()).max(turn)
}

// The words that a terminal holds, in the variables behind the temporaries.
fn held_scope(alloc: Global, t: &Terminal, temps: u32) -> Result<Slots, NoMemory>
    requires { temps + held_count (finish_of t.now) < 2 ^ 32 }
    ensures rows { IfOk result (λ held. held.rows
        ≡ range_with_len temps (held_count (finish_of t.now))) }
    ensures next { IfOk result (λ held. held.next ≡ temps + held_count (finish_of t.now)) }
    ensures first_temp { IfOk result (λ held. held.first_temp ≡ 0) }
    ensures temps { IfOk result (λ held. held.temps ≡ temps) }
{
    let mut held = Slots::new(alloc, temps);
    held.bind(held_count(t))?;
    Ok(held)
}

// A turn of a machine, and what the terminal does with its row. The words that the terminal holds
// stand in the variables `held`.
fn machine_turn<'a>(m: &Machine, t: &'a Terminal, held: &'a [Word]) -> Turn<'a>
    requires states { length (terms_of m.now.init) < 2 ^ 32 }
    requires row { length (terms_of m.now.item) < 2 ^ 32 }
    ensures { (temps : ℕ)
        → HasRoom temps (terms_of m.now.init) (term_of m.now.guard) (actions_of m.now.acts)
        (length (terms_of m.now.item)) (finish_of t.now)
        → held.now ≡ held_vars temps (terms_of m.now.init) (term_of m.now.guard)
        (actions_of m.now.acts) (length (terms_of m.now.item)) (finish_of t.now)
        → IsTurnFor temps (terms_of m.now.init) (term_of m.now.guard) (actions_of m.now.acts)
        (length (terms_of m.now.item)) (finish_of t.now) result }
{
    turn_for(t, held, width(m.init.as_slice()), width(m.item.as_slice()))
}

// Appends the statements that set the words that a terminal holds, and the first state of a machine.
fn put_starts(
    alloc: Global,
    m: &Machine,
    t: &Terminal,
    temps: u32,
    block: &mut Stmts,
) -> Result<(), NoMemory>
    requires { HasRoom temps (terms_of m.now.init) (term_of m.now.guard) (actions_of m.now.acts)
        (length (terms_of m.now.item)) (finish_of t.now) }
    ensures { OnOk result (Appends block.old block.new
        (join (finish_openings (finish_of t.now) temps)
        (openings (terms_of m.now.init) (temps + held_count (finish_of t.now))))) }
{
    let slots = Slots::new(alloc, temps);
    put_finish_openings(alloc, t, &slots, block)?;
    put_openings(alloc, &m.init, &slots, temps + held_count(t), block)
}

// The words of the state of a machine, in the variables behind those of `held`.
fn state_scope(alloc: Global, m: &Machine, t: &Terminal, held: &Slots) -> Result<Slots, NoMemory>
    requires next { held.now.next ≡ held.now.temps + held_count (finish_of t.now) }
    requires first_temp { held.now.first_temp ≡ 0 }
    requires room { held.now.next + length (terms_of m.now.init) < 2 ^ 32 }
    ensures { IfOk result (IsStateScope held.now.temps (terms_of m.now.init) (term_of m.now.guard)
        (actions_of m.now.acts) (length (terms_of m.now.item)) (finish_of t.now)) }
{
    let mut state = held.empty_scope(alloc);
    state.bind(width(m.init.as_slice()))?;
    Ok(state)
}

// Appends the loop of a machine, and gives the number of variables. The words that the terminal holds
// are those of `held`.
fn put_machine_loop(
    alloc: Global,
    m: &Machine,
    t: &Terminal,
    held: &Slots,
    block: &mut Stmts,
) -> Result<u32, NoMemory>
    requires room { HasRoom held.now.temps (terms_of m.now.init) (term_of m.now.guard)
        (actions_of m.now.acts) (length (terms_of m.now.item)) (finish_of t.now) }
    requires rows { held.now.rows ≡ range_with_len held.now.temps (held_count (finish_of t.now)) }
    requires next { held.now.next ≡ held.now.temps + held_count (finish_of t.now) }
    requires first_temp { held.now.first_temp ≡ 0 }
    ensures block { OnOk result (Appends block.old block.new
        (machine_loop held.now.temps (terms_of m.now.init) (term_of m.now.guard)
        (actions_of m.now.acts) (length (terms_of m.now.item)) (finish_of t.now))) }
    ensures vars { IfOk result (λ vars. vars
        ≡ (turn_piece held.now.temps (terms_of m.now.init) (term_of m.now.guard)
        (actions_of m.now.acts) (length (terms_of m.now.item)) (finish_of t.now)).next) }
{
    let turn = machine_turn(m, t, held.rows.as_slice());
    let mut state = state_scope(alloc, m, t, held)?;
    put_loop(alloc, &m.guard, m.acts.as_slice(), turn, &mut state, block)?;
    Ok(state.next)
}

// The statements of the program of a machine, whose acts add its row to the local words, and how
// many variables there are.
fn statements(
    alloc: Global,
    m: &Machine,
    t: &Terminal,
    temps: u32,
) -> Result<(Stmts, u32), NoMemory>
    requires { HasRoom temps (terms_of m.now.init) (term_of m.now.guard) (actions_of m.now.acts)
        (length (terms_of m.now.item)) (finish_of t.now) }
    ensures { IfOk result (λ it. IsBodyOf temps (terms_of m.now.init) (term_of m.now.guard)
        (actions_of m.now.acts) (length (terms_of m.now.item)) (finish_of t.now) (block_of it.0)
        it.1) }
{
    let mut body = Stmts::new(alloc);
    put_starts(alloc, m, t, temps, &mut body)?;
    let held = held_scope(alloc, t, temps)?;
    let vars = put_machine_loop(alloc, m, t, &held, &mut body)?;
    put_ending(t, held.rows.as_slice(), &mut body)?;
    Ok((body, vars))
}

// The statements of the program, and how many variables there are.
fn program_body(alloc: Global, p: &Program, c: &Core) -> Result<(Stmts, u32), NoMemory>
    requires { IsCoreFor (pipeline_of p.now) (core_term_of c.now) }
    ensures well_formed { IfOk result (λ it.
        IsWellFormed (routine_from p.now.inputs it.1 it.0)) }
    ensures emitted { IfOk result (λ it.
        IsEmitted (pipeline_of p.now) (routine_from p.now.inputs it.1 it.0)) }
{
    laws_below();
    let mut machine = linearise(alloc, c)?;
    let temps = machine_temps(&machine, &p.terminal);
    push_lets(alloc, &machine.item, &mut machine.acts)?;
    statements(alloc, &machine, &p.terminal, temps)
}

// The program of a machine, with the pipeline's inputs as its parameters.
fn machine_program(alloc: Global, p: &Program, c: &Core) -> Result<Prog, NoMemory>
    requires { IsCoreFor (pipeline_of p.now) (core_term_of c.now) }
    ensures { IfOk result (λ q. IsEmitted (pipeline_of p.now) (routine_of q)) }
{
    let (body, vars) = program_body(alloc, p, c)?;
    let params = List::from_slice(alloc, p.inputs.as_slice())?;
    Ok(Prog { params, vars, body })
}

/// The loop program of a pipeline, made of a core term for its stream: one loop over the state of the
/// term's machine, in which each row is printed or folded, without dead code.
///
/// Run n turns, the program goes no further than the pipeline's lists at n pulls, and run as many
/// turns as the lists' work, it goes as far as they do. It has few variables, and the pipeline's
/// inputs as its parameters. The one error is `NoMemory`, where memory is refused.
pub fn emit(alloc: Global, p: &Program, c: &Core) -> Result<Prog, NoMemory>
    requires { IsCoreFor (pipeline_of p.now) (core_term_of c.now) }
    ensures { IfOk result (λ q. IsEmitted (pipeline_of p.now) (routine_of q)) }
{
    laws_below();
    let whole = machine_program(alloc, p, c)?;
    without_dead_code(alloc, &whole)
}
