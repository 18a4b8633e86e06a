//! Laws of the definitions. These functions do nothing: their contracts are the laws, which specs/Promises tells.

ghost use Rattle.dead_code.specs.Promises.{DeadCodeDoesNothing, DeadCodeSpendsNoTurns};
ghost use Rattle.dead_code.specs.Promises.{LiveProgramsAreNoLarger, LiveProgramsAreWellFormed};

pub fn dead_code_does_nothing()
    ensures meaning { DeadCodeDoesNothing }
    ensures turns { DeadCodeSpendsNoTurns }
{}

pub fn live_programs_are_no_larger()
    ensures sizes { LiveProgramsAreNoLarger }
    ensures well_formed { LiveProgramsAreWellFormed }
{}
