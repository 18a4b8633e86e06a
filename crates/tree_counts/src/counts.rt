//! Counts of what a text may have only so many of.
#![tactic(auto, using(crate::proofs::CountSteps::count_append, crate::proofs::CountSteps::count_cons))]

ghost use Rattle.std.specs.Prelude.{◌≡◌, ◌∷◌, [], map};
ghost use Rattle.pipe_tree.specs.Bounds.{text_input_offsets, text_op_offsets, text_node_offsets};
ghost use Rattle.tree_counts.specs.Counting.{count_of};
ghost use Rattle.pipe_tree.specs.TreeCopies.{declaration_of, text_of};
ghost use Rattle.pipe_tree.specs.Trees.{Declaration};

use pipe_tree::{Decl, Tree};

/// The offset of the first that is one too many.
#[derive(Clone, Copy)]
pub struct Past {
    pub at: u32,
}

/// Counts what stands at this offset, where so many more are allowed: how many are allowed behind it.
pub fn count_one(at: u32, room: u32) -> Result<u32, Past>
    ensures { result ≡ count_of (at ∷ []) room }
{
    if room == 0 {
        Err(Past { at })
    } else {
        Ok(room - 1)
    }
}

/// Counts declarations, of which so many are allowed: how many more are, or the first that is one too
/// many.
pub fn count_inputs(inputs: &[Decl], room: u32) -> Result<u32, Past>
    ensures { result
        ≡ count_of (map (λ (d : Declaration). d.at) (map declaration_of inputs.now)) room }
{
    let mut left = room;
    for declaration in inputs {
        left = count_one(declaration.at, left)?;
    }
    Ok(left)
}
