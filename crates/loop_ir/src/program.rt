ghost use Rattle.loop_ir.specs.StatementCopies.{routine_from};
ghost use Rattle.loop_ir.specs.WellFormed.{IsWellFormed};

use crate::syntax::Stmts;
use list_denotation::InputKinds;

/// A loop program: the kinds of its parameters, how many variables it has, and its statements.
///
/// It keeps that it has at most 2^32 parameters, that each variable in it is below `vars`, that
/// each array and each int in it is a parameter of that kind, and that each constant is a word.
#[derive(Drop)]
pub struct Prog {
    pub params: InputKinds,
    pub vars: u32,
    pub body: Stmts,
    ghost well_formed: { IsWellFormed (routine_from params vars body) },
}
