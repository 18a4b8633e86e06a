//! Laws of the definitions. These functions do nothing: their contracts are the laws, which specs/Promises tells.

ghost use Rattle.stateful_core.specs.Promises.{ExactActsSkipNoTurn, CoreRowsHaveTheirWidth};

pub fn exact_acts_skip_no_turn()
    ensures { ExactActsSkipNoTurn }
{}

pub fn core_rows_have_their_width()
    ensures { CoreRowsHaveTheirWidth }
{}
