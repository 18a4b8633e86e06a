ghost use Rattle.std.specs.Prelude.{◌≡◌, ◌≤◌, ◌+◌, min};
ghost use Rattle.pipe_tree.specs.Bounds.{depth_of};
ghost use Rattle.pipe_tree.specs.TreeCopies.{formula_of};
ghost use Rattle.pipe_limits.specs.declared.TheConstants.{MOST_DEPTH};

use pipe_limits::MOST_DEPTH;
use pipe_tree::TExpr;

/// An expression and its depth, which is counted up to `MOST_DEPTH` + 1 only: what is deeper has that
/// too.
#[derive(Drop)]
pub struct Operand {
    pub expr: Box<TExpr>,
    pub depth: u32,
    pub ghost measured: { depth ≡ min (depth_of (formula_of expr.value)) (MOST_DEPTH + 1) },
}

/// The depth of a form whose deepest part has this depth, counted up to `MOST_DEPTH` + 1.
pub fn depth_around(depth: u32) -> u32
    requires { depth ≤ MOST_DEPTH + 1 }
    ensures { result ≡ min (depth + 1) (MOST_DEPTH + 1) }
{
    (depth + 1).min(MOST_DEPTH + 1)
}
