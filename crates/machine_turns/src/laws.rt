//! Laws of the definitions. These functions do nothing: their contracts are the laws, which specs/Promises tells.

ghost use Rattle.machine_turns.specs.Promises.{ReachedRowsAreAsFar, MachinesReachTheirRows};
ghost use Rattle.machine_turns.specs.Promises.{StagesMakeTheirRowsOfMachines, StagesReachTheirRows};
ghost use Rattle.machine_turns.specs.Promises.{StagesMakeTheirRowsOfStages};
ghost use Rattle.machine_turns.specs.Promises.{StagesKeepFarRows, InnerMachinesGoNoFurther};
ghost use Rattle.machine_turns.specs.Promises.{InnerMachinesReachJoinedRows};
ghost use Rattle.machine_turns.specs.Promises.{MachinesSideBySideGoNoFurther};
ghost use Rattle.machine_turns.specs.Promises.{MachinesSideBySideReachZippedRows};

pub fn machines_reach_their_rows()
    ensures far { ReachedRowsAreAsFar }
    ensures own { MachinesReachTheirRows }
{}

pub fn stages_run_over_machines()
    ensures rows { StagesMakeTheirRowsOfMachines }
    ensures stages { StagesMakeTheirRowsOfStages }
    ensures reaches { StagesReachTheirRows }
    ensures far { StagesKeepFarRows }
{}

pub fn inner_machines_run_within_outer_ones()
    ensures no_further { InnerMachinesGoNoFurther }
    ensures reaches { InnerMachinesReachJoinedRows }
{}

pub fn machines_run_side_by_side()
    ensures no_further { MachinesSideBySideGoNoFurther }
    ensures reaches { MachinesSideBySideReachZippedRows }
{}
