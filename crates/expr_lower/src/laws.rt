//! Laws of the definitions. These functions do nothing: their contracts are the laws, which specs/Promises tells.

ghost use Rattle.expr_lower.specs.Laws.{Laws};
ghost use Rattle.expr_lower.specs.Promises.{CostsAreFew, TemporariesAreFew, ValuesAreLowered};
ghost use Rattle.expr_lower.specs.Promises.{ConditionsAreLowered, OperandsAreLowered};
ghost use Rattle.expr_lower.specs.Promises.{FreshVariablesAreTargets, ScopesInPlaceHoldWordsInPlace};
ghost use Rattle.expr_lower.specs.Promises.{NamedScopesNameWords, PlainValuesAreOneAssignment};
ghost use Rattle.expr_lower.specs.Promises.{PlainOperandsHaveNoStatements, PlainOperandsAreWords};
ghost use Rattle.expr_lower.specs.Promises.{PlainExpressionsNeedNoTemporaries};
ghost use Rattle.expr_lower.specs.Promises.{PlainWordsHaveTheirValues, ValuesNameTheirLeaves};
ghost use Rattle.expr_lower.specs.Promises.{ConditionsNameTheirLeaves, TestsNameTheirLeaves};
ghost use Rattle.expr_lower.specs.Promises.{BareTestsNameTheirLeaves, OperandsNameTheirLeaves};
ghost use Rattle.expr_lower.specs.Promises.{OperandWordsNameTheirLeaves, ValuesHaveWordConstants};
ghost use Rattle.expr_lower.specs.Promises.{ConditionsHaveWordConstants, OperandsHaveWordConstants};

use expr_constants::constants_are_values;
use expr_forms::forms_have_the_leaves_of_their_parts;
use expr_phrases::{
    comparisons_tell_the_signed_order, divisions_assign_signed_results, opposites_negate,
    zero_remainders_need_no_sign,
};
use list_denotation::costs_go_with_nodes;

/// What the crates below promise of their definitions.
pub fn laws_below()
    ensures { Laws }
{
    constants_are_values();
    opposites_negate();
    comparisons_tell_the_signed_order();
    divisions_assign_signed_results();
    zero_remainders_need_no_sign();
    forms_have_the_leaves_of_their_parts();
}

pub fn costs_are_few()
    ensures { CostsAreFew }
{
    costs_go_with_nodes();
}

pub fn temporaries_are_few()
    ensures { TemporariesAreFew }
{}

pub fn expressions_are_lowered()
    ensures values { ValuesAreLowered }
    ensures conditions { ConditionsAreLowered }
    ensures operands { OperandsAreLowered }
{
    laws_below();
}

pub fn scopes_hold_expressions()
    ensures target { FreshVariablesAreTargets }
    ensures in_place { ScopesInPlaceHoldWordsInPlace }
    ensures names { NamedScopesNameWords }
{}

pub fn plain_expressions_are_words()
    ensures values { PlainValuesAreOneAssignment }
    ensures operands { PlainOperandsHaveNoStatements }
    ensures words { PlainOperandsAreWords }
    ensures temporaries { PlainExpressionsNeedNoTemporaries }
    ensures gives { PlainWordsHaveTheirValues }
{
    laws_below();
}

pub fn expressions_name_their_leaves()
    ensures values { ValuesNameTheirLeaves }
    ensures conditions { ConditionsNameTheirLeaves }
    ensures tests { TestsNameTheirLeaves }
    ensures bare_tests { BareTestsNameTheirLeaves }
    ensures operands { OperandsNameTheirLeaves }
    ensures words { OperandWordsNameTheirLeaves }
    ensures value_constants { ValuesHaveWordConstants }
    ensures condition_constants { ConditionsHaveWordConstants }
    ensures operand_constants { OperandsHaveWordConstants }
{
    laws_below();
}
