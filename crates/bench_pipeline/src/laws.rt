//! Laws of the definitions. These functions do nothing: their contracts are the laws, which specs/Promises tells.

ghost use Rattle.bench_pipeline.specs.Promises.{BenchInputsFit, BenchShowsOneRow, BenchIsLittleWork};

pub fn bench_inputs_fit()
    ensures { BenchInputsFit }
{}

pub fn bench_shows_one_row()
    ensures { BenchShowsOneRow }
{}

pub fn bench_is_little_work()
    ensures { BenchIsLittleWork }
{}
