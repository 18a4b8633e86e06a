//! Laws of the definitions. These functions do nothing: their contracts are the laws, which specs/Promises tells.

ghost use Rattle.expr_constants.specs.Laws.{Laws};
ghost use Rattle.expr_constants.specs.Promises.{ConstantsAreValues, ConstantsAreWords};

use strm_num::signed_division_divides_magnitudes;

// What strm_num promises of its definitions.
fn laws_below()
    ensures { Laws }
{
    signed_division_divides_magnitudes();
}

pub fn constants_are_values()
    ensures value { ConstantsAreValues }
    ensures words { ConstantsAreWords }
{
    laws_below();
}
