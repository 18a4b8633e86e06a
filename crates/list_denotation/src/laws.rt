//! Laws of the definitions. These functions do nothing: their contracts are the laws, which specs/Promises tells.

ghost use Rattle.list_denotation.specs.Promises.{TypedProgramsKeepLimits};
ghost use Rattle.list_denotation.specs.Promises.{TypedProgramsHaveRowsWithKinds};
ghost use Rattle.list_denotation.specs.Promises.{TypedExpressionsReadBoundWords};
ghost use Rattle.list_denotation.specs.Promises.{TypedExpressionsNameDeclaredInputs};
ghost use Rattle.list_denotation.specs.Promises.{CostsGoWithNodes, UndividedCostsGoWithNodes};

pub fn typed_programs_keep_limits()
    ensures limits { TypedProgramsKeepLimits }
    ensures kinds { TypedProgramsHaveRowsWithKinds }
{}

pub fn typed_expressions_read_the_scope()
    ensures bound { TypedExpressionsReadBoundWords }
    ensures inputs { TypedExpressionsNameDeclaredInputs }
{}

pub fn costs_go_with_nodes()
    ensures any { CostsGoWithNodes }
    ensures undivided { UndividedCostsGoWithNodes }
{}
