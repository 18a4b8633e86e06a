//! What each command does: its steps, and then its work.

ghost use Rattle.std.specs.Prelude.{◌≡◌, ◌≤◌, Some, Ok, drop};
ghost use Rattle.command_words.specs.declared.jobs.TheConstants.{MOST_BENCH_ITEMS};
ghost use Rattle.command_words.specs.Commands.{IsWithin, file_of, texts_of};
ghost use Rattle.job_files.specs.Sources.{named_of};
ghost use Rattle.job_steps.specs.Answers.{AnswersSteps, LeavesDevices};
ghost use Rattle.job_steps.specs.Jobs.{BindsWork, PlacesWork, PreparesC, PreparesJob, PreparesPipeline};
ghost use Rattle.job_steps.specs.Pipelines.{LoadsPipeline};
ghost use Rattle.job_steps.specs.Steps.{Is, Then};
ghost use Rattle.job_steps.specs.Works.{Benching, Counting, Compiling, Ends};
ghost use Rattle.loop_ir.specs.Routines.{routine_of};
ghost use Rattle.job_work.specs.Ways.{work_of};
ghost use Rattle.job_work.specs.Working.{Does};

use bench_pipeline::bench_text;
use bench_reading::bench_text_is_its_pipeline;
use command_words::Job;
use job_files::{Source, loaded_c, loaded_pipeline, read_pipeline};
use job_inputs::{bound_inputs, placed_inputs};
use job_steps::files_have_one_refusal;
use job_work::{Way, bench, compile, count, execute, show};
use loop_ir::Prog;
use status_lines::Status;
use std::alloc::Global;
use strm_io::{Files, Sink};

/// The file that the words name, and nothing where they name none.
fn file_in(words: &[String]) -> &str
    ensures { result.now ≡ file_of (texts_of words.now) }
{
    match words {
        [_, file, ..] => file.as_str(),
        _ => "",
    }
}

/// The words from a number on.
fn behind(words: &[String], rest: u64) -> &[String]
    ensures { texts_of result.now ≡ drop rest (texts_of words.now) }
{
    let from = rest as usize;
    if from <= words.len() {
        &words[from..]
    } else {
        &[]
    }
}

/// Writes the counts of the pipeline in a file.
#[tactic(auto, using(crate::proofs::JobAnswers::devices))]
fn check_file<F: Files, O: Sink>(alloc: Global, name: &str, files: &mut F, out: &mut O) -> Status
    ensures answers { AnswersSteps
        (Then (LoadsPipeline (F.told files.old).holds name.now) (λ s. Is (Ok (Counting s.pipeline))))
        (O.written out.old) (O.written out.new) result }
    ensures leaves { LeavesDevices (F.told files.old) (F.told files.new)
        (O.faults out.old) (O.faults out.new) result }
{
    match loaded_pipeline(alloc, files, name) {
        Ok(source) => count(alloc, &source.program, out),
        Err(status) => status,
    }
}

/// Writes the C text of the pipeline in a file.
#[tactic(auto, using(crate::proofs::JobAnswers::devices))]
fn compile_file<F: Files, O: Sink>(alloc: Global, name: &str, files: &mut F, out: &mut O) -> Status
    ensures answers { AnswersSteps
        (Then (LoadsPipeline (F.told files.old).holds name.now) (λ s. Is (Ok (Compiling s.pipeline))))
        (O.written out.old) (O.written out.new) result }
    ensures leaves { LeavesDevices (F.told files.old) (F.told files.new)
        (O.faults out.old) (O.faults out.new) result }
{
    match loaded_pipeline(alloc, files, name) {
        Ok(source) => compile(alloc, &source.program, out),
        Err(status) => status,
    }
}

/// Writes what a pipeline shows on the inputs that words bind.
#[tactic(auto, using(crate::proofs::JobAnswers::devices))]
fn show_source<F: Files, O: Sink>(
    alloc: Global,
    way: Way,
    source: &Source,
    words: &[String],
    files: &mut F,
    out: &mut O,
) -> Status
    ensures answers { AnswersSteps
        (BindsWork (F.told files.old).holds (texts_of words.now) (work_of way) (named_of source.now))
        (O.written out.old) (O.written out.new) result }
    ensures leaves { LeavesDevices (F.told files.old) (F.told files.new)
        (O.faults out.old) (O.faults out.new) result }
{
    let names = source.tree.inputs.as_slice();
    match bound_inputs(alloc, files, words, names, &source.program.inputs) {
        Ok(inputs) => show(alloc, way, &source.program, &inputs, out),
        Err(status) => status,
    }
}

/// Writes what the pipeline in a file shows on the inputs that words bind.
#[tactic(auto, using(crate::proofs::JobAnswers::devices))]
fn show_file<F: Files, O: Sink>(
    alloc: Global,
    way: Way,
    name: &str,
    words: &[String],
    files: &mut F,
    out: &mut O,
) -> Status
    ensures answers { AnswersSteps
        (PreparesPipeline (F.told files.old).holds name.now (texts_of words.now) (work_of way))
        (O.written out.old) (O.written out.new) result }
    ensures leaves { LeavesDevices (F.told files.old) (F.told files.new)
        (O.faults out.old) (O.faults out.new) result }
{
    match loaded_pipeline(alloc, files, name) {
        Ok(source) => show_source(alloc, way, &source, words, files, out),
        Err(status) => status,
    }
}

/// Runs a program of a C text on values in order, with so many turns of its loops.
#[tactic(auto, using(crate::proofs::JobAnswers::devices))]
fn execute_on<F: Files, O: Sink>(
    alloc: Global,
    turns: u64,
    program: &Prog,
    values: &[String],
    files: &mut F,
    out: &mut O,
) -> Status
    ensures answers { AnswersSteps
        (PlacesWork (F.told files.old).holds (texts_of values.now) turns (routine_of program.now))
        (O.written out.old) (O.written out.new) result }
    ensures leaves { LeavesDevices (F.told files.old) (F.told files.new)
        (O.faults out.old) (O.faults out.new) result }
{
    match placed_inputs(alloc, files, values, &program.params) {
        Ok(inputs) => execute(alloc, program, &inputs, turns, out),
        Err(status) => status,
    }
}

/// Runs the program of the C text in a file on values in order, with so many turns of its loops.
#[tactic(auto, using(crate::proofs::JobAnswers::devices))]
fn execute_file<F: Files, O: Sink>(
    alloc: Global,
    turns: u64,
    name: &str,
    values: &[String],
    files: &mut F,
    out: &mut O,
) -> Status
    ensures answers { AnswersSteps
        (PreparesC (F.told files.old).holds name.now (texts_of values.now) turns)
        (O.written out.old) (O.written out.new) result }
    ensures leaves { LeavesDevices (F.told files.old) (F.told files.new)
        (O.faults out.old) (O.faults out.new) result }
{
    match loaded_c(alloc, files, name) {
        Ok(program) => execute_on(alloc, turns, &program, values, files, out),
        Err(status) => status,
    }
}

/// Reads the text of the bench as that of a file is read, runs its pipeline on so many items of a seed, and
/// writes the lines.
fn bench_items<O: Sink>(alloc: Global, seed: u64, count: u64, out: &mut O) -> Status
    requires { count ≤ MOST_BENCH_ITEMS }
    ensures does { Does (Ends (Benching seed count))
        (O.written out.old) (O.written out.new) (O.faults out.old) (O.faults out.new) result }
    ensures faults { O.faults out.old ≤ O.faults out.new }
{
    bench_text_is_its_pipeline();
    files_have_one_refusal();
    match read_pipeline(alloc, bench_text().as_bytes()) {
        Ok(source) => bench(alloc, &source.program, seed, count, out),
        Err(status) => status,
    }
}

/// Does what a job asks for, by the words that it was read from.
pub fn do_job<F: Files, O: Sink>(
    alloc: Global,
    job: Job,
    words: &[String],
    files: &mut F,
    out: &mut O,
) -> Status
    requires { IsWithin job }
    ensures answers { AnswersSteps
        (PreparesJob (F.told files.old).holds (texts_of words.now) (Some job))
        (O.written out.old) (O.written out.new) result }
    ensures leaves { LeavesDevices (F.told files.old) (F.told files.new)
        (O.faults out.old) (O.faults out.new) result }
{
    let name = file_in(words);
    match job {
        Job::Check => check_file(alloc, name, files, out),
        Job::Compile => compile_file(alloc, name, files, out),
        Job::Run { turns, rest } => {
            show_file(
                alloc,
                Way::Loops(turns),
                name,
                behind(words, rest),
                files,
                out,
            )
        }
        Job::Exec { turns, rest } => {
            execute_file(alloc, turns, name, behind(words, rest), files, out)
        }
        Job::Model { pulls, rest } => {
            show_file(
                alloc,
                Way::Lists(pulls),
                name,
                behind(words, rest),
                files,
                out,
            )
        }
        Job::Bench { seed, count } => bench_items(alloc, seed, count, out),
    }
}
