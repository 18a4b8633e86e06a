ghost use Rattle.std.specs.Prelude.{◌≡◌};
ghost use Rattle.bench_pipeline.specs.Texts.{bench_text};

/// The text of the pipeline that a bench runs. It zips two `flatMap`s over the items of the array `a`, and
/// folds their rows into the sum of products and a count.
pub fn bench_text() -> &'static str
    ensures { result.now ≡ bench_text }
{
    "input a: array;
zip(array a | map x -> x % 4 | flatMap k -> (range(0, k) | map i -> k * 10 + i),
    array a | map y -> {y, y % 3} | flatMap {y, k} -> (range(0, k) | map j -> y + j))
| fold {0, 0} with {s, c} {u, v} -> {s + u * v, c + 1}
"
}
