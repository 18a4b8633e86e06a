//! That the text of the pipeline which a bench runs reads as this pipeline.
//!
//! It depends on bench_pipeline, for the text and the pipeline, on job_steps, for what it is that a file
//! is a pipeline, on pipe_reader, for the law that its reader is exact, and on unicode_ident, for what
//! the letters are. The law carries the promise. `proofs/Reading` reads a text by computation.
#![tactic(auto)]

ghost use Rattle.bench_pipeline.specs.Pipelines.{bench_pipeline};
ghost use Rattle.bench_pipeline.specs.Texts.{bench_text};
ghost use Rattle.job_steps.specs.Pipelines.{IsPipelineFile};

use pipe_reader::texts_are_read_exactly;

/// The text of the bench is its pipeline, so that it is never refused.
pub fn bench_text_is_its_pipeline()
    ensures { IsPipelineFile bench_text bench_pipeline }
{
    texts_are_read_exactly();
}
