//! Laws of the definitions. These functions do nothing: their contracts are the laws, which specs/Promises tells.

ghost use Rattle.kind_rules.specs.Promises.{TypedTreesStandForPrograms, FaultsAreFirst};
ghost use Rattle.kind_rules.specs.Promises.{ProgramsOfTreesAreTyped, TreesHaveAnAnswer};

pub fn typed_trees_stand_for_programs()
    ensures { TypedTreesStandForPrograms }
{}

pub fn faults_are_first()
    ensures { FaultsAreFirst }
{}

pub fn programs_of_trees_are_typed()
    ensures { ProgramsOfTreesAreTyped }
{}

pub fn trees_have_an_answer()
    ensures { TreesHaveAnAnswer }
{}
