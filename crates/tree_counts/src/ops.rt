//! The number of operators: sources, stages and the terminal.
#![tactic(auto, using(crate::proofs::CountSteps::count_append, crate::proofs::CountSteps::count_cons, pipe_tree::specs::declared::tree::TSource::the_lemmas, std::proofs::lemmas::Grind::common_steps))]

ghost use Rattle.std.specs.Prelude.{◌≡◌};
ghost use Rattle.pipe_tree.specs.Bounds.{stream_ops, source_ops, stages_ops, stage_ops, text_op_offsets};
ghost use Rattle.tree_counts.specs.Counting.{count_of};
ghost use Rattle.pipe_tree.specs.TreeCopies.{source_of, stage_of, stages_of, stream_of, text_of};

use crate::counts::{Past, count_one};
use pipe_tree::{TSource, TStage, TStageNode, TStream, Tree};

#[cycle(ops)]
fn count_source(source: &TSource, room: u32) -> Result<u32, Past>
    ensures { result ≡ count_of (source_ops (source_of source.now)) room }
{
    match source {
        TSource::Array(_) | TSource::Range(_, _) | TSource::Unfold { .. } => Ok(room),
        TSource::Zip(left, right) => {
            let room = count_stream(left, room)?;
            count_stream(right, room)
        }
    }
}

#[cycle(ops)]
fn count_stage(stage: &TStage, room: u32) -> Result<u32, Past>
    ensures { result ≡ count_of (stage_ops (stage_of stage.now)) room }
{
    let room = count_one(stage.at, room)?;
    match &stage.node {
        TStageNode::FlatMap(_, inner) => count_stream(inner, room),
        TStageNode::Map(_, _)
        | TStageNode::Filter(_, _)
        | TStageNode::TakeWhile(_, _)
        | TStageNode::Take(_)
        | TStageNode::Drop(_)
        | TStageNode::Scan { .. } => Ok(room),
    }
}

#[cycle(ops)]
fn count_stages(stages: &[TStage], room: u32) -> Result<u32, Past>
    ensures { result ≡ count_of (stages_ops (stages_of stages.now)) room }
{
    let mut left = room;
    for stage in stages {
        left = count_stage(stage, left)?;
    }
    Ok(left)
}

#[cycle(ops)]
fn count_stream(stream: &TStream, room: u32) -> Result<u32, Past>
    ensures { result ≡ count_of (stream_ops (stream_of stream.now)) room }
{
    let room = count_one(stream.at, room)?;
    let room = count_source(&stream.source, room)?;
    count_stages(stream.stages.as_slice(), room)
}

/// Counts the operators of a text, of which so many are allowed: how many more are, or the first that
/// is one too many.
pub fn count_ops(tree: &Tree, room: u32) -> Result<u32, Past>
    ensures { result ≡ count_of (text_op_offsets (text_of tree.now)) room }
{
    let room = count_stream(&tree.stream, room)?;
    count_one(tree.terminal_at, room)
}
