ghost use Rattle.std.specs.Prelude.{◌≡◌, ◌≢◌, ◌≤◌, ◌<◌, ◌++◌, [], IfOk, OnOk};
ghost use Rattle.list_denotation.specs.Copies.{terms_of, finish_of};
ghost use Rattle.list_denotation.specs.Observation.{Failed, standing_of, row_events, print_rows, fold_rows, finish_rows, observation};
ghost use Rattle.list_denotation.specs.Pipelines.{pipeline_of};
ghost use Rattle.list_denotation.specs.Values.{Trap, row_value};
ghost use Rattle.list_denotation.specs.Work.{work};
ghost use Rattle.list_model.specs.Answers.{IsAnswer};
ghost use Rattle.list_model.specs.declared.observation.Observation.{Observation};
ghost use Rattle.list_model.specs.Listed.{ending_of, listed};
ghost use Rattle.list_model.specs.Seen.{seen_of, standing_at};

use crate::fault::ModelFault;
use crate::rows::{Ending, ListedRows, joined};
use crate::streams::list_rows;
use expr_values::row_value;
use list_denotation::{Event, Events, Exprs, Inputs, Program, Terminal, Words};
use pipe_limits::MOST_WORK;
use std::alloc::Global;
use strm_num::{List, NoMemory};

/// How a run stops: it is done, it is still going at the bound, or an expression trapped.
#[derive(Clone, Copy)]
pub enum Stop {
    Done,
    Going,
    Trap,
}

/// What is seen of a pipeline: its events, and how it stops.
#[derive(Drop)]
pub struct Observation {
    pub events: Events,
    pub stop: Stop,
}

/// The observation of a pipeline over these inputs, where each source that it opens is cut off
/// behind `pulls` rows. `TooMuch` comes exactly where its work is above `MOST_WORK`, and `NoMemory`
/// may come at any time.
///
/// An input that isn't there, or isn't of the kind that the pipeline names, has no items or is 0.
pub fn observe(
    alloc: Global,
    p: &Program,
    inputs: &Inputs,
    pulls: u64,
) -> Result<Observation, ModelFault>
    ensures answers { IsAnswer (pipeline_of p.now) inputs.now pulls result }
    ensures within { work (pipeline_of p.now) inputs.now pulls ≤ MOST_WORK
        → result ≢ Err ModelFault.TooMuch }
    ensures too_much { MOST_WORK < work (pipeline_of p.now) inputs.now pulls
        → (o : Observation) → result ≢ Ok o }
{
    let none = List::new(alloc);
    let mut room = MOST_WORK;
    let rows = list_rows(alloc, &p.stream, &none, inputs, pulls, &mut room)?;
    Ok(finish_rows(alloc, &p.terminal, &rows, inputs)?)
}

/// What is seen where the terminal gets these rows.
fn finish_rows(
    alloc: Global,
    terminal: &Terminal,
    rows: &ListedRows,
    inputs: &Inputs,
) -> Result<Observation, NoMemory>
    ensures { IfOk result (λ o. seen_of o
        ≡ finish_rows (finish_of terminal.now) inputs.now (listed rows.now.rows rows.now.ending)) }
{
    match terminal {
        Terminal::Fold { seed, next } => {
            let none = List::new(alloc);
            let Some(state) = row_value(alloc, seed, &none, inputs)? else {
                return Ok(failed(alloc));
            };
            fold_rows(alloc, rows, state, next, inputs)
        }
        Terminal::Print => print_rows(alloc, rows),
    }
}

/// What is seen where each row is printed.
#[tactic(auto, using(crate::proofs::EventSteps::print_steps))]
fn print_rows(alloc: Global, rows: &ListedRows) -> Result<Observation, NoMemory>
    ensures { IfOk result (λ o. seen_of o ≡ print_rows (listed rows.now.rows rows.now.ending)) }
{
    let mut events = List::new(alloc);
    for i in 0..rows.rows.len() {
        push_row(&mut events, rows.rows.get(i))?;
    }
    Ok(Observation {
        events,
        stop: stop_at(rows.ending),
    })
}

/// What is seen where the rows are folded into a state, which is printed at their end alone.
#[tactic(auto, using(crate::proofs::EventSteps::fold_steps))]
fn fold_rows(
    alloc: Global,
    rows: &ListedRows,
    mut state: Words,
    next: &Exprs,
    inputs: &Inputs,
) -> Result<Observation, NoMemory>
    ensures { IfOk result (λ o. seen_of o
        ≡ fold_rows (λ state r. row_value (terms_of next.now) (state ++ r) inputs.now) state
        (listed rows.now.rows rows.now.ending)) }
{
    for i in 0..rows.rows.len() {
        let bound = joined(alloc, &state, rows.rows.get(i))?;
        let Some(after) = row_value(alloc, next, &bound, inputs)? else {
            return Ok(failed(alloc));
        };
        state = after;
    }
    let mut events = List::new(alloc);
    if rows.ending == Ending::End {
        push_row(&mut events, &state)?;
    }
    Ok(Observation {
        events,
        stop: stop_at(rows.ending),
    })
}

/// Appends the events of a row. After a refusal some of them may have been appended.
#[tactic(auto, using(crate::proofs::EventSteps::row_steps))]
fn push_row(events: &mut Events, row: &Words) -> Result<(), NoMemory>
    ensures { OnOk result (events.new ≡ events.old ++ row_events row.now []) }
{
    for i in 0..row.len() {
        events.push(Event::Emit(*row.get(i)))?;
    }
    events.push(Event::EndRow)?;
    Ok(())
}

/// How a run stops where its rows end so.
fn stop_at(ending: Ending) -> Stop
    ensures { standing_at result ≡ standing_of (ending_of ending) }
{
    match ending {
        Ending::End => Stop::Done,
        Ending::Cut => Stop::Going,
        Ending::Trap => Stop::Trap,
    }
}

/// No events, for an expression trapped before the first.
fn failed(alloc: Global) -> Observation
    ensures { seen_of result ≡ record { events = []; standing = Failed Trap } }
{
    Observation {
        events: List::new(alloc),
        stop: Stop::Trap,
    }
}
