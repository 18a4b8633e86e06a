//! Laws of the definitions. These functions do nothing: their contracts are the laws, which specs/Promises tells.

ghost use Rattle.expr_forms.specs.Laws.{Laws};
ghost use Rattle.expr_forms.specs.Promises.{MinusHasLeavesOfItsPart, OppositeHasLeavesOfItsPart};
ghost use Rattle.expr_forms.specs.Promises.{ConditionHasLeavesOfItsForm, ValueHasLeavesOfItsForm};
ghost use Rattle.expr_forms.specs.Promises.{OperandStatementsHaveLeavesOfTheirForm};
ghost use Rattle.expr_forms.specs.Promises.{OperandWordHasLeavesOfItsForm};
ghost use Rattle.expr_forms.specs.Promises.{OperationHasLeavesOfItsParts, MultipleHasLeavesOfItsParts};
ghost use Rattle.expr_forms.specs.Promises.{ConnectiveHasLeavesOfItsParts, ChoiceHasLeavesOfItsParts};

use expr_constants::constants_are_values;
use expr_phrases::{
    comparisons_tell_the_signed_order, divisions_assign_signed_results, opposites_negate,
    zero_remainders_need_no_sign,
};

// What expr_constants and expr_phrases promise of their definitions.
fn laws_below()
    ensures { Laws }
{
    constants_are_values();
    opposites_negate();
    comparisons_tell_the_signed_order();
    divisions_assign_signed_results();
    zero_remainders_need_no_sign();
}

pub fn forms_have_the_leaves_of_their_parts()
    ensures minus { MinusHasLeavesOfItsPart }
    ensures opposite { OppositeHasLeavesOfItsPart }
    ensures condition { ConditionHasLeavesOfItsForm }
    ensures value { ValueHasLeavesOfItsForm }
    ensures operand { OperandStatementsHaveLeavesOfTheirForm }
    ensures word { OperandWordHasLeavesOfItsForm }
    ensures operation { OperationHasLeavesOfItsParts }
    ensures multiple { MultipleHasLeavesOfItsParts }
    ensures connective { ConnectiveHasLeavesOfItsParts }
    ensures choice { ChoiceHasLeavesOfItsParts }
{
    laws_below();
}
