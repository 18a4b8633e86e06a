ghost use Rattle.std.specs.Prelude.{◌≡◌, length};

use list_denotation::Program;
use pipe_tree::Tree;

/// A pipeline text that was read: its tree, which names the inputs, and its program, which has as many.
#[derive(Drop)]
pub struct Source {
    pub tree: Box<Tree>,
    pub program: Program,
    ghost named: { length tree.value.inputs ≡ length program.inputs },
}
