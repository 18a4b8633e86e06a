ghost use Rattle.std.specs.Prelude.{◌≡◌, drop, IfSome, option_map, string_bytes};
ghost use Rattle.std.specs.List.{list_all};
ghost use Rattle.std.specs.Option.{option_and_then};
ghost use Rattle.command_words.specs.Bindings.{is_binding};
ghost use Rattle.command_words.specs.Bounds.{bound_of};
ghost use Rattle.command_words.specs.Commands.{IsWithin, alone, bench_job, bench_of, bound_given, job_named, job_of, pulls_of, texts_of, turns_of, with_bindings};
ghost use Rattle.command_words.specs.declared.jobs.Job.TheVariants.{Run, Exec, Model};

use crate::bindings::is_binding;
use crate::jobs::{DEFAULT_TURNS, Job, MOST_BENCH_ITEMS};
use value_files::natural;

/// A bound, and the number of the first word behind it.
#[derive(Clone, Copy)]
struct Bound {
    count: u64,
    rest: u64,
}

/// What the words ask for, and none exactly where they are no command.
///
/// The commands are `check FILE`, `compile FILE`, `run FILE [--turns N] [NAME=VALUE ..]`,
/// `exec FILE [--turns N] [VALUE ..]`, `model FILE --pulls N [NAME=VALUE ..]` and `bench SEED COUNT`. What
/// stands in brackets may be left out, and `..` stands for more words of the same form. FILE and VALUE may
/// be any text, and NAME is one byte or more without `=`. N, SEED and COUNT are one decimal digit or more;
/// the number of N and of SEED is below 2^64, and that of COUNT at most 1,000,000. Where `--turns` is left out, N is 100,000,000. A word `--turns` directly behind the file is always the
/// option, and is never taken as a VALUE. The call takes no memory.
#[tactic(auto, using(crate::proofs::WordTexts::few_words))]
pub fn read_words(words: &[String]) -> Option<Job>
    ensures reads { result ≡ job_of (texts_of words.now) }
    // What follows for `Bench`: its count is at most 1,000,000.
    ensures within { IfSome result IsWithin }
{
    match words {
        [command, first, behind @ ..] => {
            job_named(command.as_str(), words, first.as_str(), behind)
        }
        _ => None,
    }
}

/// The job of a command, by all words, by the first behind the command, and by those behind that.
fn job_named(command: &str, words: &[String], first: &str, behind: &[String]) -> Option<Job>
    ensures { result ≡ job_named command.now (texts_of words.now) first.now (texts_of behind.now) }
{
    match command {
        "check" => alone(Job::Check, behind),
        "compile" => alone(Job::Compile, behind),
        "run" => run_job(words, behind),
        "exec" => exec_job(behind),
        "model" => model_job(words, behind),
        "bench" => bench_job(first, behind),
        _ => None,
    }
}

/// The job, where no word stands behind the file.
fn alone(job: Job, behind: &[String]) -> Option<Job>
    ensures { result ≡ alone job (texts_of behind.now) }
{
    match behind {
        [] => Some(job),
        _ => None,
    }
}

/// The job of `run`: its turns, and bindings behind them.
#[tactic(auto, using(crate::proofs::WordTexts::bindings_behind))]
fn run_job(words: &[String], behind: &[String]) -> Option<Job>
    ensures { result ≡ option_and_then (with_bindings Run (texts_of words.now)) (turns_of (texts_of behind.now)) }
{
    let bound = turns(behind)?;
    if are_bindings(words, bound.rest) {
        Some(Job::Run {
            turns: bound.count,
            rest: bound.rest,
        })
    } else {
        None
    }
}

/// The job of `exec`: its turns, and any words behind them.
fn exec_job(behind: &[String]) -> Option<Job>
    ensures { result ≡ option_map (λ b. Exec b.count b.rest) (turns_of (texts_of behind.now)) }
{
    let bound = turns(behind)?;
    Some(Job::Exec {
        turns: bound.count,
        rest: bound.rest,
    })
}

/// The job of `model`: its pulls, and bindings behind them.
#[tactic(auto, using(crate::proofs::WordTexts::bindings_behind))]
fn model_job(words: &[String], behind: &[String]) -> Option<Job>
    ensures { result ≡ option_and_then (with_bindings Model (texts_of words.now)) (pulls_of (texts_of behind.now)) }
{
    let bound = pulls(behind)?;
    if are_bindings(words, bound.rest) {
        Some(Job::Model {
            pulls: bound.count,
            rest: bound.rest,
        })
    } else {
        None
    }
}

/// The job of `bench`: its seed, its count, and nothing behind them.
fn bench_job(seed: &str, behind: &[String]) -> Option<Job>
    ensures { result ≡ bench_job seed.now (texts_of behind.now) }
{
    match behind {
        [count] => bench_of(natural(seed.as_bytes()), natural(count.as_str().as_bytes())),
        _ => None,
    }
}

/// The job of `bench`, where both are numbers, and the count is no more than it may be.
fn bench_of(seed: Option<u64>, count: Option<u64>) -> Option<Job>
    ensures { result ≡ bench_of seed count }
{
    match (seed, count) {
        (Some(seed), Some(count)) if count <= MOST_BENCH_ITEMS => Some(Job::Bench { seed, count }),
        _ => None,
    }
}

/// Whether each word from this number on is a binding.
fn are_bindings(words: &[String], rest: u64) -> bool
    ensures { result ≡ list_all (λ word. is_binding (string_bytes word)) (drop rest words.now) }
{
    words
        .iter()
        .skip(rest as usize)
        .all(|word| is_binding(word.as_str()))
}

/// The turns, by the words behind the file: those of the option, or the default.
fn turns(behind: &[String]) -> Option<Bound>
    ensures { option_map bound_of result ≡ turns_of (texts_of behind.now) }
{
    match behind {
        [option, more @ ..] if option.as_str() == "--turns" => bound_given(more),
        _ => Some(Bound {
            count: DEFAULT_TURNS,
            rest: 2,
        }),
    }
}

/// The pulls, by the words behind the file: those of the option.
fn pulls(behind: &[String]) -> Option<Bound>
    ensures { option_map bound_of result ≡ pulls_of (texts_of behind.now) }
{
    match behind {
        [option, more @ ..] if option.as_str() == "--pulls" => bound_given(more),
        _ => None,
    }
}

/// The bound that the option is followed by, by the words behind the option.
fn bound_given(more: &[String]) -> Option<Bound>
    ensures { option_map bound_of result ≡ bound_given (texts_of more.now) }
{
    match more {
        [count, ..] => Some(Bound {
            count: natural(count.as_str().as_bytes())?,
            rest: 4,
        }),
        [] => None,
    }
}
