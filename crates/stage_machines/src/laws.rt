//! Laws of the definitions. These functions do nothing: their contracts are the laws, which specs/Promises tells.

ghost use Rattle.stage_machines.specs.Laws.{Laws};
ghost use Rattle.stage_machines.specs.Promises.{JoinedStatesAreBoth, JoinedTurnsAreThoseOfBoth};
ghost use Rattle.stage_machines.specs.Promises.{JoinedGuardsAreThoseOfBoth, StagesJoinMachines};
ghost use Rattle.stage_machines.specs.Promises.{JoinedMachinesReachRows, StagesJoinStages};
ghost use Rattle.stage_machines.specs.Promises.{JoinedPartsAreSound, JoinedPartsAddNoWords};
ghost use Rattle.stage_machines.specs.Promises.{JoinedPartsHaveLeavesOfBoth};
ghost use Rattle.stage_machines.specs.Promises.{JoinedPartsNeedTemporariesOfBoth};

use denotation_laws::{expressions_read_bound_words_alone, undivided_expressions_have_values};
use machine_turns::stages_run_over_machines;
use stateful_core::core_rows_have_their_width;

// What the crates below promise of their definitions.
fn laws_below()
    ensures { Laws }
{
    expressions_read_bound_words_alone();
    undivided_expressions_have_values();
    core_rows_have_their_width();
    stages_run_over_machines();
}

pub fn turns_are_joined()
    ensures states { JoinedStatesAreBoth }
    ensures turns { JoinedTurnsAreThoseOfBoth }
    ensures guards { JoinedGuardsAreThoseOfBoth }
{
    laws_below();
}

pub fn stages_join_what_is_below()
    ensures machines { StagesJoinMachines }
    ensures reaches { JoinedMachinesReachRows }
    ensures stages { StagesJoinStages }
{
    laws_below();
}

pub fn joined_parts_are_those_of_both()
    ensures sound { JoinedPartsAreSound }
    ensures words { JoinedPartsAddNoWords }
    ensures leaves { JoinedPartsHaveLeavesOfBoth }
    ensures temporaries { JoinedPartsNeedTemporariesOfBoth }
{
    laws_below();
}
