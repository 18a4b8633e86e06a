//! The number of nodes of all expressions, parentheses counted.
#![tactic(auto, using(crate::proofs::CountSteps::count_append, crate::proofs::CountSteps::count_cons, pipe_tree::specs::declared::tree::TSource::the_lemmas, std::proofs::lemmas::Grind::common_steps))]

ghost use Rattle.std.specs.Prelude.{◌≡◌, ◌++◌, ◌∷◌, [], map};
ghost use Rattle.pipe_tree.specs.Bounds.{node_offsets, of_source, of_stage, of_stages, row_node_offsets, stream_node_offsets, terminal_node_offsets, text_node_offsets};
ghost use Rattle.tree_counts.specs.Counting.{count_of};
ghost use Rattle.pipe_tree.specs.TreeCopies.{formula_of, row_of, source_of, stage_of, stages_of, stream_of, terminal_of, text_of};

use crate::counts::{Past, count_one};
use pipe_tree::{TExpr, TNode, TRow, TSource, TStage, TStageNode, TStream, TTerminal, Tree};

fn count_expression(e: &TExpr, room: u32) -> Result<u32, Past>
    ensures { result ≡ count_of (node_offsets (formula_of e.now)) room }
{
    match &e.node {
        TNode::Num(_) | TNode::Truth(_) | TNode::Name(_) | TNode::Len(_) => count_one(e.at, room),
        TNode::Neg(a) | TNode::Not(a) | TNode::Paren(a) => {
            let room = count_one(e.at, room)?;
            count_expression(a, room)
        }
        TNode::Bin(_, op_at, a, b) | TNode::And(op_at, a, b) | TNode::Or(op_at, a, b) => {
            let room = count_expression(a, room)?;
            let room = count_one(*op_at, room)?;
            count_expression(b, room)
        }
        TNode::If(c, a, b) => {
            let room = count_one(e.at, room)?;
            let room = count_expression(c, room)?;
            let room = count_expression(a, room)?;
            count_expression(b, room)
        }
    }
}

fn count_row(row: &TRow, room: u32) -> Result<u32, Past>
    ensures { result ≡ count_of (row_node_offsets (row_of row.now).parts) room }
{
    let mut left = room;
    for part in row.parts.as_slice() {
        left = count_expression(part, left)?;
    }
    Ok(left)
}

#[cycle(nodes)]
fn count_source(source: &TSource, room: u32) -> Result<u32, Past>
    ensures { result ≡ count_of (of_source [] node_offsets row_node_offsets ◌++◌
        (source_of source.now)) room }
{
    match source {
        TSource::Array(_) => Ok(room),
        TSource::Range(low, high) => {
            let room = count_expression(low, room)?;
            count_expression(high, room)
        }
        TSource::Unfold {
            seed,
            pat: _,
            guard,
            item,
            next,
        } => {
            let room = count_row(seed, room)?;
            let room = count_expression(guard, room)?;
            let room = count_row(item, room)?;
            count_row(next, room)
        }
        TSource::Zip(left, right) => {
            let room = count_stream(left, room)?;
            count_stream(right, room)
        }
    }
}

#[cycle(nodes)]
fn count_stage(stage: &TStage, room: u32) -> Result<u32, Past>
    ensures { result ≡ count_of (of_stage [] node_offsets row_node_offsets ◌++◌
        (stage_of stage.now)) room }
{
    match &stage.node {
        TStageNode::Map(_, body) => count_row(body, room),
        TStageNode::Filter(_, test) | TStageNode::TakeWhile(_, test) => count_expression(
            test, room,
        ),
        TStageNode::Take(count) | TStageNode::Drop(count) => count_expression(count, room),
        TStageNode::Scan {
            seed,
            state: _,
            pat: _,
            next,
        } => {
            let room = count_row(seed, room)?;
            count_row(next, room)
        }
        TStageNode::FlatMap(_, inner) => count_stream(inner, room),
    }
}

#[cycle(nodes)]
fn count_stages(stages: &[TStage], room: u32) -> Result<u32, Past>
    ensures { result ≡ count_of (of_stages [] node_offsets row_node_offsets ◌++◌
        (stages_of stages.now)) room }
{
    let mut left = room;
    for stage in stages {
        left = count_stage(stage, left)?;
    }
    Ok(left)
}

#[cycle(nodes)]
fn count_stream(stream: &TStream, room: u32) -> Result<u32, Past>
    ensures { result ≡ count_of (stream_node_offsets (stream_of stream.now)) room }
{
    let room = count_source(&stream.source, room)?;
    count_stages(stream.stages.as_slice(), room)
}

fn count_terminal(terminal: &TTerminal, room: u32) -> Result<u32, Past>
    ensures { result ≡ count_of (terminal_node_offsets (terminal_of terminal.now)) room }
{
    match terminal {
        TTerminal::Fold {
            seed,
            state: _,
            pat: _,
            next,
        } => {
            let room = count_row(seed, room)?;
            count_row(next, room)
        }
        TTerminal::Print => Ok(room),
    }
}

/// Counts the nodes of a text, of which so many are allowed: how many more are, or the first that is
/// one too many.
pub fn count_nodes(tree: &Tree, room: u32) -> Result<u32, Past>
    ensures { result ≡ count_of (text_node_offsets (text_of tree.now)) room }
{
    let room = count_stream(&tree.stream, room)?;
    count_terminal(&tree.terminal, room)
}
