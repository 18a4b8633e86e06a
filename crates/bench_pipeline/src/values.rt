ghost use Rattle.std.specs.Prelude.{◌≡◌, IfOk};
ghost use Rattle.bench_pipeline.specs.Generator.{bench_items, item_of, next_state};

use list_denotation::Words;
use std::alloc::Global;
use strm_num::{List, NoMemory, Word};

/// The state of the generator behind a state.
fn next_state(x: u64) -> u64
    ensures { result ≡ next_state x }
{
    x.wrapping_mul(6364136223846793005)
        .wrapping_add(1442695040888963407)
}

/// The item of a state, which is below 2^31.
fn item_of(x: u64) -> Word
    ensures { result ≡ item_of x }
{
    x / (1 << 33)
}

/// So many items of a seed. From the seed x on, each item is the upper 31 bits of
/// 6364136223846793005 * x + 1442695040888963407 modulo 2^64, which is the x of the next item. The one
/// error is `NoMemory`, where memory is refused.
pub fn bench_values(alloc: Global, seed: u64, count: u64) -> Result<Words, NoMemory>
    ensures { IfOk result (λ items. items ≡ bench_items seed count) }
{
    let mut items = List::new(alloc);
    let mut x = seed;
    for _ in 0..count {
        x = next_state(x);
        items.push(item_of(x))?;
    }
    Ok(items)
}
