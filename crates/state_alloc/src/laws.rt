//! Laws of the definitions. These functions do nothing: their contracts are the laws, which specs/Promises tells.

ghost use Rattle.state_alloc.specs.Promises.{FreshVariablesDiffer, WordsStandInNoTemporary};
ghost use Rattle.state_alloc.specs.Promises.{FreshVariablesAreNoTemporaries};

pub fn words_are_apart()
    ensures distinct { FreshVariablesDiffer }
    ensures words_no_temporary { WordsStandInNoTemporary }
    ensures fresh_no_temporary { FreshVariablesAreNoTemporaries }
{}
