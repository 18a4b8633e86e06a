//! Which expressions a division may use more than once: constants and names.

ghost use Rattle.std.specs.Prelude.{◌≡◌};
ghost use Rattle.list_denotation.specs.Copies.{term_of};
ghost use Rattle.expr_constants.specs.Simple.{is_leaf, is_simple};

use crate::constants::constant;
use list_denotation::Expr;

/// Whether it is a number, a truth or a name.
pub fn is_leaf(e: &Expr) -> bool
    ensures { result ≡ is_leaf (term_of e.now) }
{
    matches!(
        e,
        Expr::Lit(_) | Expr::Truth(_) | Expr::Var(_) | Expr::Param(_) | Expr::Len(_)
    )
}

/// Whether it is a constant or a name, which a division may use more than once.
pub fn is_simple(e: &Expr) -> bool
    ensures { result ≡ is_simple (term_of e.now) }
{
    constant(e).is_some() || is_leaf(e)
}
