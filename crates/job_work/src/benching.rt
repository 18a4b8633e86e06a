//! The bench: its pipeline is run on the items of a seed.

ghost use Rattle.std.specs.Prelude.{◌≡◌, ◌≤◌, [], IfOk};
ghost use Rattle.bench_pipeline.specs.Pipelines.{bench_inputs, bench_pipeline};
ghost use Rattle.bench_pipeline.specs.Texts.{bench_text};
ghost use Rattle.command_words.specs.declared.jobs.TheConstants.{MOST_BENCH_ITEMS};
ghost use Rattle.count_lines.specs.CountLines.{bench_lines};
ghost use Rattle.job_steps.specs.Pipelines.{IsPipelineFile};
ghost use Rattle.job_steps.specs.Works.{Benching, Ends};
ghost use Rattle.job_work.specs.Working.{Does};
ghost use Rattle.list_denotation.specs.Pipelines.{pipeline_of};

use crate::working::{run, write};
use bench_pipeline::{bench_inputs_fit, bench_is_little_work, bench_shows_one_row, bench_values};
use bench_reading::bench_text_is_its_pipeline;
use command_words::DEFAULT_TURNS;
use count_lines::bench_lines;
use job_steps::{files_are_one_pipeline, runs_follow_the_lists};
use list_denotation::{Input, Inputs, Program};
use status_lines::Status;
use std::alloc::Global;
use strm_io::{MemSink, Sink};
use strm_num::{List, NoMemory};

/// The most bytes of the row: two numbers of 20 characters, a blank and a line feed.
const ROW_BYTES: u64 = 42;

/// The inputs of the bench: one array, of so many items of a seed.
fn inputs_of(alloc: Global, seed: u64, count: u64) -> Result<Inputs, NoMemory>
    ensures { IfOk result (λ inputs. inputs ≡ bench_inputs seed count) }
{
    let items = bench_values(alloc, seed, count)?;
    let mut inputs = List::new(alloc);
    inputs.push(Input::Array(items))?;
    Ok(inputs)
}

/// Writes the lines of a bench by the text of its row.
fn write_lines<O: Sink>(
    alloc: Global,
    program: &Program,
    count: u64,
    row: &[u8],
    out: &mut O,
) -> Status
    ensures does { Does (λ end text. (end ≡ Status.Done) × (text ≡ bench_lines (pipeline_of program.now) count row.now))
        (O.written out.old) (O.written out.new) (O.faults out.old) (O.faults out.new) result }
    ensures faults { O.faults out.old ≤ O.faults out.new }
{
    match bench_lines(alloc, program, count, row) {
        Ok(text) => write(text.as_slice(), out),
        Err(_) => Status::NoMemory,
    }
}

/// Runs the pipeline of the bench on its inputs, and writes the lines. The row is kept in memory: where it
/// finds no room there, memory is refused.
fn bench_on<O: Sink>(
    alloc: Global,
    program: &Program,
    inputs: &Inputs,
    seed: u64,
    count: u64,
    row: &mut MemSink,
    out: &mut O,
) -> Status
    requires program { pipeline_of program.now ≡ bench_pipeline }
    requires inputs { inputs.now ≡ bench_inputs seed count }
    requires few { count ≤ MOST_BENCH_ITEMS }
    requires empty { row.old.written ≡ [] }
    ensures does { Does (Ends (Benching seed count))
        (O.written out.old) (O.written out.new) (O.faults out.old) (O.faults out.new) result }
    ensures faults { O.faults out.old ≤ O.faults out.new }
{
    bench_text_is_its_pipeline();
    bench_inputs_fit();
    bench_shows_one_row();
    bench_is_little_work();
    runs_follow_the_lists();
    match run(alloc, program, inputs, DEFAULT_TURNS, row) {
        Status::Done => write_lines(alloc, program, count, row.bytes(), out),
        Status::WriteFault => Status::NoMemory,
        status => status,
    }
}

/// Runs the pipeline of the bench on so many items of a seed, and writes the lines. The program is the one
/// that the text of the bench stands for.
pub fn bench<O: Sink>(
    alloc: Global,
    program: &Program,
    seed: u64,
    count: u64,
    out: &mut O,
) -> Status
    requires program { IsPipelineFile bench_text (pipeline_of program.now) }
    requires few { count ≤ MOST_BENCH_ITEMS }
    ensures does { Does (Ends (Benching seed count))
        (O.written out.old) (O.written out.new) (O.faults out.old) (O.faults out.new) result }
    ensures faults { O.faults out.old ≤ O.faults out.new }
{
    bench_text_is_its_pipeline();
    files_are_one_pipeline();
    match (
        inputs_of(alloc, seed, count),
        MemSink::with_room(alloc, ROW_BYTES),
    ) {
        (Ok(inputs), Ok(mut row)) => {
            bench_on(alloc, program, &inputs, seed, count, &mut row, out)
        }
        _ => Status::NoMemory,
    }
}
