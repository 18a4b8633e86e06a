//! Laws of the definitions. These functions do nothing: their contracts are the laws, which specs/Promises tells.

ghost use Rattle.expr_phrases.specs.Laws.{Laws};
ghost use Rattle.strm_num.specs.Promises.{MagnitudesAreWords};
ghost use Rattle.expr_phrases.specs.Promises.{MinusNegates, OppositesNegate};
ghost use Rattle.expr_phrases.specs.Promises.{OppositesHaveLeavesOfTheirTest};
ghost use Rattle.expr_phrases.specs.Promises.{ComparisonsTellTheSignedOrder};
ghost use Rattle.expr_phrases.specs.Promises.{ComparisonsHaveLeavesOfTheirWords};
ghost use Rattle.expr_phrases.specs.Promises.{DivisionsAssignSignedResults, ResultsOfDivisionsAreWords};
ghost use Rattle.expr_phrases.specs.Promises.{DivisionsHaveLeavesOfTheirOperands};
ghost use Rattle.expr_phrases.specs.Promises.{DivisionsHaveFewStatements, DivisionsHaveNoLoops};
ghost use Rattle.expr_phrases.specs.Promises.{MagnitudesAreAssigned, MultiplesAreToldByMagnitudes};
ghost use Rattle.expr_phrases.specs.Promises.{MultiplesAreToldByWords};
ghost use Rattle.expr_phrases.specs.Promises.{MagnitudesHaveLeavesOfTheirOperand};
ghost use Rattle.expr_phrases.specs.Promises.{MultiplesHaveLeavesOfTheirOperand};
ghost use Rattle.expr_phrases.specs.Promises.{MagnitudesHaveFewStatements, MagnitudesHaveNoLoops};

use strm_num::{signed_division_divides_magnitudes, signed_order_flips_sign_bits};

// What strm_num promises of its definitions.
fn laws_below()
    ensures { Laws }
{
    signed_division_divides_magnitudes();
    signed_order_flips_sign_bits();
}

pub fn opposites_negate()
    ensures words { MinusNegates }
    ensures tests { OppositesNegate }
    ensures leaves { OppositesHaveLeavesOfTheirTest }
{}

pub fn comparisons_tell_the_signed_order()
    ensures truth { ComparisonsTellTheSignedOrder }
    ensures leaves { ComparisonsHaveLeavesOfTheirWords }
{
    laws_below();
}

pub fn divisions_assign_signed_results()
    ensures assigns { DivisionsAssignSignedResults }
    ensures words { ResultsOfDivisionsAreWords }
    ensures leaves { DivisionsHaveLeavesOfTheirOperands }
    ensures few { DivisionsHaveFewStatements }
    ensures no_loops { DivisionsHaveNoLoops }
{
    laws_below();
}

pub fn zero_remainders_need_no_sign()
    ensures words { MagnitudesAreWords }
    ensures magnitudes { MagnitudesAreAssigned }
    ensures of_magnitude { MultiplesAreToldByMagnitudes }
    ensures of_word { MultiplesAreToldByWords }
    ensures block_leaves { MagnitudesHaveLeavesOfTheirOperand }
    ensures test_leaves { MultiplesHaveLeavesOfTheirOperand }
    ensures few { MagnitudesHaveFewStatements }
    ensures no_loops { MagnitudesHaveNoLoops }
{
    laws_below();
}
