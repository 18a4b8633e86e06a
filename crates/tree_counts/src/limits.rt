//! The limits of a tree's counts.

ghost use Rattle.tree_counts.specs.CountedTexts.{CountsAs};
ghost use Rattle.pipe_tree.specs.TreeCopies.{text_of};

use crate::counts::count_inputs;
use crate::nodes::count_nodes;
use crate::ops::count_ops;
use pipe_limits::{MOST_INPUTS, MOST_NODES, MOST_OPERATORS};
use pipe_tree::{ParseFault, Tree};

/// Finds the first count that is past its limit: the inputs, the operators, the nodes. The fault's
/// offset is that of the first that is one too many.
pub fn check_counts(tree: &Tree) -> Result<(), ParseFault>
    ensures { CountsAs (text_of tree.now) result }
{
    if let Err(past) = count_inputs(tree.inputs.as_slice(), MOST_INPUTS) {
        return Err(ParseFault::TooManyInputs(past.at));
    }
    if let Err(past) = count_ops(tree, MOST_OPERATORS) {
        return Err(ParseFault::TooManyOps(past.at));
    }
    if let Err(past) = count_nodes(tree, MOST_NODES) {
        return Err(ParseFault::TooManyNodes(past.at));
    }
    Ok(())
}
