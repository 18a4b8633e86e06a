//! Laws of the definitions. These functions do nothing: their contracts are the laws, which specs/Promises tells.

ghost use Rattle.turn_blocks.specs.Laws.{Laws};
ghost use Rattle.turn_blocks.specs.Promises.{TurnsAreLowered, PrintingTakesRows, PrintingStops};
ghost use Rattle.turn_blocks.specs.Promises.{FoldingTakesRows, FoldingStops, PrintingTakesNoVariables};
ghost use Rattle.turn_blocks.specs.Promises.{FoldingTakesFewVariables, PrintingNamesItsRow};
ghost use Rattle.turn_blocks.specs.Promises.{FoldingNamesItsWords, PrintingHasWordConstants};
ghost use Rattle.turn_blocks.specs.Promises.{FoldingHasWordConstants, TurnsNameDeclaredVariables};
ghost use Rattle.turn_blocks.specs.Promises.{TurnsHaveWordConstants, TurnsTakeFewVariables};
ghost use Rattle.turn_blocks.specs.Promises.{ActsTakeLaterVariables};

use denotation_laws::undivided_expressions_have_values;
use expr_constants::constants_are_values;
use expr_lower::{
    expressions_are_lowered, expressions_name_their_leaves, plain_expressions_are_words,
    scopes_hold_expressions,
};

/// What expr_lower, expr_constants and denotation_laws promise of expressions.
fn laws_below()
    ensures { Laws }
{
    expressions_are_lowered();
    expressions_name_their_leaves();
    plain_expressions_are_words();
    scopes_hold_expressions();
    undivided_expressions_have_values();
    constants_are_values();
}

pub fn turns_are_lowered()
    ensures { TurnsAreLowered }
{
    laws_below();
}

pub fn rows_are_taken()
    ensures prints { PrintingTakesRows }
    ensures print_stops { PrintingStops }
    ensures folds { FoldingTakesRows }
    ensures fold_stops { FoldingStops }
    ensures print_few { PrintingTakesNoVariables }
    ensures fold_few { FoldingTakesFewVariables }
    ensures print_names { PrintingNamesItsRow }
    ensures fold_names { FoldingNamesItsWords }
    ensures print_constants { PrintingHasWordConstants }
    ensures fold_constants { FoldingHasWordConstants }
{
    laws_below();
}

pub fn turns_name_declared_variables()
    ensures names { TurnsNameDeclaredVariables }
    ensures constants { TurnsHaveWordConstants }
    ensures few { TurnsTakeFewVariables }
    ensures grows { ActsTakeLaterVariables }
{
    laws_below();
}
