//! What `check` writes of a pipeline, the kinds of the row that its terminal gives and its counts; and what
//! `bench` writes.
//!
//! It depends on list_denotation, for programs and what is counted of them, and on text_pieces.
//! `specs/CountLines` defines the lines; `counts_text` and `bench_lines` carry the promise that they give
//! them.
#![tactic(auto)]

ghost use Rattle.std.specs.Prelude.{◌≡◌, ◌++◌, IfOk, OnOk};
ghost use Rattle.list_denotation.specs.Pipelines.{pipeline_of};
ghost use Rattle.count_lines.specs.CountLines.{bench_lines, bound_lines, count_line, counts_text, kind_text};
ghost use Rattle.count_lines.specs.CountLines.{kind_texts, kinds_line, loop_lines, size_lines};

use list_denotation::{
    Kind, Kinds, Program, depth, loops_of, most_stmts, most_vars, nest_of, nodes, ops, row_kinds,
};
use std::alloc::Global;
use strm_num::NoMemory;
use text_pieces::{put, put_number};

/// The eight lines of a pipeline, as ASCII: the kinds of the row that its terminal gives, and then
/// its counts in decimal. Each line ends in a line feed.
///
/// The one error is `NoMemory`, where memory is refused.
pub fn counts_text(alloc: Global, p: &Program) -> Result<Vec<u8>, NoMemory>
    ensures { IfOk result (λ text. text.items ≡ counts_text (pipeline_of p.now)) }
{
    let mut out = Vec::new(alloc);
    put_kinds(alloc, &mut out, p)?;
    put_sizes(&mut out, p)?;
    put_loops(&mut out, p)?;
    put_bounds(&mut out, p)?;
    Ok(out)
}

/// The four lines of a bench of a pipeline, as ASCII: the number of items that it ran on, the text of the
/// row that it gave, which ends in a line feed, and how many loops it has and how deep they are nested.
///
/// The one error is `NoMemory`, where memory is refused.
pub fn bench_lines(alloc: Global, p: &Program, items: u64, row: &[u8]) -> Result<Vec<u8>, NoMemory>
    ensures { IfOk result (λ text. text.items ≡ bench_lines (pipeline_of p.now) items row.now) }
{
    let mut out = Vec::new(alloc);
    put_count(&mut out, b"items ", items)?;
    put(&mut out, b"result ")?;
    put(&mut out, row)?;
    put_loops(&mut out, p)?;
    Ok(out)
}

/// Puts the line of the kinds.
fn put_kinds(alloc: Global, out: &mut Vec<u8>, p: &Program) -> Result<(), NoMemory>
    ensures { OnOk result (out.new.items ≡ out.old.items ++ kinds_line (pipeline_of p.now)) }
{
    let kinds = row_kinds(alloc, p)?;
    put(out, b"kinds")?;
    put_kind_texts(out, &kinds)?;
    put(out, b"\n")
}

/// Puts each kind with a blank before it.
fn put_kind_texts(out: &mut Vec<u8>, kinds: &Kinds) -> Result<(), NoMemory>
    ensures { OnOk result (out.new.items ≡ out.old.items ++ kind_texts kinds.now) }
{
    for kind in kinds.as_slice() {
        put(out, kind_text(*kind).as_bytes())?;
    }
    Ok(())
}

/// A blank and the kind.
fn kind_text(kind: Kind) -> &'static str
    ensures { result.now ≡ kind_text kind }
{
    match kind {
        Kind::Int => " int",
        Kind::Bool => " bool",
    }
}

/// Puts the lines of the sizes.
fn put_sizes(out: &mut Vec<u8>, p: &Program) -> Result<(), NoMemory>
    ensures { OnOk result (out.new.items ≡ out.old.items ++ size_lines (pipeline_of p.now)) }
{
    put_count(out, b"ops ", ops(p))?;
    put_count(out, b"nodes ", nodes(p))?;
    put_count(out, b"depth ", depth(p))
}

/// Puts the lines of the loops.
fn put_loops(out: &mut Vec<u8>, p: &Program) -> Result<(), NoMemory>
    ensures { OnOk result (out.new.items ≡ out.old.items ++ loop_lines (pipeline_of p.now)) }
{
    put_count(out, b"loops ", loops_of(p))?;
    put_count(out, b"nesting ", nest_of(p))
}

/// Puts the lines of the bounds.
fn put_bounds(out: &mut Vec<u8>, p: &Program) -> Result<(), NoMemory>
    ensures { OnOk result (out.new.items ≡ out.old.items ++ bound_lines (pipeline_of p.now)) }
{
    put_count(out, b"variables at most ", most_vars(p))?;
    put_count(out, b"statements at most ", most_stmts(p))
}

/// Puts a line with what is counted, and the number.
fn put_count(out: &mut Vec<u8>, what: &[u8], n: u64) -> Result<(), NoMemory>
    ensures { OnOk result (out.new.items ≡ out.old.items ++ count_line what.now n) }
{
    put(out, what)?;
    put_number(out, n)?;
    put(out, b"\n")
}
