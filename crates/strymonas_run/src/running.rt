ghost use Rattle.std.specs.Prelude.{◌≡◌, ◌≤◌, ◌↔◌, ℕ, Some, None, Ok, Err};
ghost use Rattle.command_words.specs.Commands.{job_of, texts_of};
ghost use Rattle.job_steps.specs.Answers.{Answers, ComesOfFailing, ComesOfWork, LeavesDevices};
ghost use Rattle.job_steps.specs.Jobs.{Prepares};
ghost use Rattle.job_steps.specs.Works.{Work};
ghost use Rattle.status_lines.specs.StatusLines.{line_of, Reports};
ghost use Rattle.strm_io.specs.Store.{Store};

use crate::jobs::do_job;
use command_words::read_words;
use job_steps::{only_words_end_as_words, words_come_to_one};
use status_lines::{Status, report};
use std::alloc::Global;
use strm_io::{Files, Sink};

/// Runs the command that the words are: files are read from `files`, its text goes to `out`, and the line
/// of a status other than `Done` to `err`.
pub fn run_words<F: Files, O: Sink, E: Sink>(
    alloc: Global,
    words: &[String],
    files: &mut F,
    out: &mut O,
    err: &mut E,
) -> Status
    // The headline: what each status says of the words, of the files, and of what was written to `out`.
    ensures answers { Answers (F.told files.old).holds (texts_of words.now)
        (O.written out.old) (O.written out.new) result }

    // When each status comes: where a step fails, its status; and where all pass, one that the work ends
    // with.
    ensures words { (result ≡ Status.Words) ↔ (job_of (texts_of words.now) ≡ None) }
    ensures exact { (store : Store) (failed : Status) → (F.told files.old).holds ≡ Some store
        → Prepares (Some store) (texts_of words.now) (Err failed) → ComesOfFailing failed result }
    ensures complete { (store : Store) (work : Work) → (F.told files.old).holds ≡ Some store
        → Prepares (Some store) (texts_of words.now) (Ok work) → ComesOfWork work result }

    // The line on `err`.
    ensures line { Reports (E.written err.old) (E.written err.new) (line_of result)
        (E.faults err.old) (E.faults err.new) }
    ensures quiet { result ≡ Status.Done → E.written err.new ≡ E.written err.old }

    // The devices: what the store holds stays, no count falls, and a status of a device has its cause.
    ensures leaves { LeavesDevices (F.told files.old) (F.told files.new)
        (O.faults out.old) (O.faults out.new) result }
    ensures line_faults { E.faults err.old ≤ E.faults err.new }
{
    words_come_to_one();
    only_words_end_as_words();
    let status = perform(alloc, words, files, out);
    report(&status, err);
    status
}

/// Does what the words ask for.
fn perform<F: Files, O: Sink>(alloc: Global, words: &[String], files: &mut F, out: &mut O) -> Status
    ensures answers { Answers (F.told files.old).holds (texts_of words.now)
        (O.written out.old) (O.written out.new) result }
    ensures words { job_of (texts_of words.now) ≡ None → result ≡ Status.Words }
    ensures leaves { LeavesDevices (F.told files.old) (F.told files.new)
        (O.faults out.old) (O.faults out.new) result }
{
    match read_words(words) {
        Some(job) => do_job(alloc, job, words, files, out),
        None => Status::Words,
    }
}
