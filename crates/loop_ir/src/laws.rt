//! Laws of the definitions. These functions do nothing: their contracts are the laws, which specs/Promises tells.

ghost use Rattle.loop_ir.specs.Promises.{RunsGrow, EachLoopHasItsTurns, TurnsOfLoopsGrow};
ghost use Rattle.loop_ir.specs.Promises.{TurnsOfLoopsStay, TurnsOfLoopsAreSpent};
ghost use Rattle.loop_ir.specs.Promises.{GoingRunsHaveSpentAllTurns, MarksTellTurns};
ghost use Rattle.loop_ir.specs.Promises.{MarkedProgramsHaveTheSameLoops, MarkedProgramsAreWellFormed};

pub fn runs_grow()
    ensures { RunsGrow }
{}

pub fn turns_are_counted()
    ensures lengths { EachLoopHasItsTurns }
    ensures grow { TurnsOfLoopsGrow }
    ensures stay { TurnsOfLoopsStay }
    ensures spent { TurnsOfLoopsAreSpent }
    ensures all_spent { GoingRunsHaveSpentAllTurns }
{}

pub fn marks_tell_turns()
    ensures tells { MarksTellTurns }
    ensures loops { MarkedProgramsHaveTheSameLoops }
    ensures well_formed { MarkedProgramsAreWellFormed }
{}
