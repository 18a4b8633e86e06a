//! Texts at the limits of a pipeline: nested streams, operators, nodes and bytes. What `compile` writes of
//! each declares no more variables than are promised.

use run_transcript::transcript;
use std::alloc::Global;
use strm_num::NoMemory;
use text_pieces::put;

/// How many variables a C text declares.
pub fn declared_in(text: &[u8]) -> u32 {
    let mut count: u32 = 0;
    for line in text.split(|byte| *byte == b'\n') {
        if line.starts_with(b"  uint64_t v") {
            count = count.saturating_add(1);
        }
    }
    count
}

/// Whether a text is compiled, to a C text with so many variables at most.
fn is_compiled(alloc: Global, text: &[u8], most: u32) -> Result<bool, NoMemory> {
    let got = transcript(alloc, &["compile", "p"], text, 1_048_576, 64)?;
    let is_done = got.as_slice().ends_with(b"  return 0;\n}\n[0] ");
    Ok(is_done && declared_in(got.as_slice()) <= most)
}

/// Appends a part so many times.
fn put_times(text: &mut Vec<u8>, part: &[u8], times: usize) -> Result<(), NoMemory> {
    for _ in 0..times {
        put(text, part)?;
    }
    Ok(())
}

/// A source in itself so many times: each row of one opens the next. The stages stand behind the last.
fn nested(
    alloc: Global,
    source: &str,
    row: &str,
    times: usize,
    stages: &[u8],
    count: usize,
) -> Result<Vec<u8>, NoMemory> {
    let mut text = Vec::new(alloc);
    for _ in 1..times {
        put(&mut text, source.as_bytes())?;
        put(&mut text, b" | flatMap ")?;
        put(&mut text, row.as_bytes())?;
        put(&mut text, b" -> (")?;
    }
    put(&mut text, source.as_bytes())?;
    put_times(&mut text, stages, count)?;
    put_times(&mut text, b")", times.saturating_sub(1))?;
    put(&mut text, b" | print")?;
    Ok(text)
}

const ONE_WORD: &str = "unfold 0 with s while s < 2 yield s next s + 1";

/// Each word of the next state reads a word that is written before it.
const EIGHT_WORDS: &str =
    "unfold {0, 1, 2, 3, 4, 5, 6, 7} with {a, b, c, d, e, f, g, h} while a < 2 \
    yield {h, g, f, e, d, c, b, a} next {b + 1, c, d, e, f, g, h, a}";

const EIGHT_NAMES: &str = "{a, b, c, d, e, f, g, h}";

#[test]
fn nested_sources_have_few_variables(rt: HostRuntime) {
    let sixteen = nested(rt.alloc(), ONE_WORD, "x", 16, b"", 0).expect(&rt, "memory");
    let four = nested(rt.alloc(), EIGHT_WORDS, EIGHT_NAMES, 4, b"", 0).expect(&rt, "memory");
    for (text, most) in [(sixteen.as_slice(), 1044), (four.as_slice(), 276)] {
        let is_so = is_compiled(rt.alloc(), text, most).expect(&rt, "memory");
        assert!(rt; is_so, "{most}");
    }
}

/// A stage with an expression of 84 nodes, 43 deep.
fn long_stage(alloc: Global) -> Result<Vec<u8>, NoMemory> {
    let mut text = Vec::new(alloc);
    put(&mut text, b"|map x->-x")?;
    put_times(&mut text, b"+1", 41)?;
    Ok(text)
}

/// 16 nested sources and 96 stages, which are 128 operators with 8,192 nodes, in 65,536 bytes.
fn all_limits(alloc: Global) -> Result<Vec<u8>, NoMemory> {
    let stage = long_stage(alloc)?;
    let mut text = nested(alloc, ONE_WORD, "x", 16, stage.as_slice(), 96)?;
    let left = 65_536_usize.saturating_sub(text.len());
    put_times(&mut text, b" ", left)?;
    Ok(text)
}

#[test]
fn texts_at_all_limits_have_few_variables(rt: HostRuntime) {
    let text = all_limits(rt.alloc()).expect(&rt, "memory");
    let is_so = is_compiled(rt.alloc(), text.as_slice(), 4362).expect(&rt, "memory");
    assert!(rt; is_so);
    let longer = nested(rt.alloc(), ONE_WORD, "x", 17, b"", 0).expect(&rt, "memory");
    let got = transcript(rt.alloc(), &["compile", "p"], longer.as_slice(), 64, 64).expect(
        &rt, "memory",
    );
    assert!(rt;
        got.as_slice()
            .starts_with(b"[3] strymonas: refused: TooDeep at ")
    );
}
