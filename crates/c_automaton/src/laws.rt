//! A law of the definitions. This function does nothing: its contract is the law, which specs/Promises tells.

ghost use Rattle.c_automaton.specs.Promises.{ProgramsHaveTheTokensRead};
ghost use Rattle.c_automaton.specs.Promises.{TokensReadWithoutEndBeginAProgram};
ghost use Rattle.c_automaton.specs.Promises.{RefusedTokensBeginNoProgram};

pub fn programs_are_read_exactly()
    ensures reads { ProgramsHaveTheTokensRead }
    ensures ends { TokensReadWithoutEndBeginAProgram }
    ensures stops { RefusedTokensBeginNoProgram }
{}
