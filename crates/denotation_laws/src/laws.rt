//! Laws of the definitions. These functions do nothing: their contracts are the laws, which specs/Promises tells.

ghost use Rattle.std.specs.Prelude.{ℕ, List};
ghost use Rattle.denotation_laws.specs.Promises.{NoObservationIsStuck, RowsGrow, ObservationsGrow};
ghost use Rattle.denotation_laws.specs.Promises.{WorkGrows, RowsGrowWithTheBound};
ghost use Rattle.denotation_laws.specs.Promises.{ObservationsGrowWithTheBound, WorkGrowsWithTheBound};
ghost use Rattle.denotation_laws.specs.Promises.{FarIsTransitive, FarIsAntisymmetric};
ghost use Rattle.denotation_laws.specs.Promises.{FarRowsAreEqualOrCutShort, FarRowsIsReflexive};
ghost use Rattle.denotation_laws.specs.Promises.{FarRowsIsTransitive, FarRowsIsAntisymmetric};
ghost use Rattle.denotation_laws.specs.Promises.{MapsKeepFarRows, FiltersKeepFarRows, TakesKeepFarRows};
ghost use Rattle.denotation_laws.specs.Promises.{DropsKeepFarRows, TakeWhilesKeepFarRows};
ghost use Rattle.denotation_laws.specs.Promises.{ScansKeepFarRows, RowsThatFollowKeepFarRows};
ghost use Rattle.denotation_laws.specs.Promises.{JoinedRowsKeepFarRows, ZippedRowsKeepFarRows};
ghost use Rattle.denotation_laws.specs.Promises.{TerminalsKeepFar, JoinedRowsDependOnInnerLists};
ghost use Rattle.denotation_laws.specs.Promises.{SumsDependOnInnerLists, SumsGrowWithTheirRows};
ghost use Rattle.denotation_laws.specs.Promises.{ExpressionsReadBoundWordsAlone};
ghost use Rattle.denotation_laws.specs.Promises.{RowsReadBoundWordsAlone, BoundExpressionsStayBound};
ghost use Rattle.denotation_laws.specs.Promises.{BoundRowsStayBound, UndividedExpressionsHaveValues};
ghost use Rattle.denotation_laws.specs.Promises.{UndividedRowsHaveValues, IntInputsAreWords};
ghost use Rattle.denotation_laws.specs.Promises.{ItemsAreWords, ArraysHaveFewItems, ValuesAreWords};
ghost use Rattle.denotation_laws.specs.Promises.{RowValuesAreWords, RowValuesHaveTheirWidth};
ghost use Rattle.denotation_laws.specs.Promises.{StreamsHaveRowsOfTheirWidth, RowsSideBySideAreARow};
ghost use Rattle.denotation_laws.specs.Promises.{EachOfRowsIsARow, TypedStreamsReadTheirScopes};
ghost use Rattle.denotation_laws.specs.Promises.{TypedStreamsHaveTheWidthOfTheirKinds};
ghost use Rattle.denotation_laws.specs.Promises.{StreamsAreAtMostSoWide, TypedProgramsReadTheirScopes};
ghost use Rattle.denotation_laws.specs.Promises.{TypedStreamsHaveRowsOfTheirKinds, RangesGoUpByOne};
ghost use Rattle.denotation_laws.specs.Promises.{RangesEndAtTheirBound, CountsGoDownByOne};
ghost use Rattle.denotation_laws.specs.Promises.{CountsEndAtZero, LowWordsAreOrderedAsNumbers};

use list_denotation::typed_expressions_read_the_scope;

// ---- observations

pub fn no_observation_is_stuck()
    ensures { NoObservationIsStuck }
{}

pub fn observations_grow()
    ensures rows { RowsGrow }
    ensures far { ObservationsGrow }
    ensures work { WorkGrows }
    ensures rows_later { RowsGrowWithTheBound }
    ensures far_later { ObservationsGrowWithTheBound }
    ensures work_later { WorkGrowsWithTheBound }
{}

pub fn far_is_an_order()
    ensures transitive { FarIsTransitive }
    ensures antisymmetric { FarIsAntisymmetric }
{}

// ---- lists of rows

pub fn far_rows_is_an_order()
    ensures cut_short { FarRowsAreEqualOrCutShort }
    ensures reflexive { FarRowsIsReflexive }
    ensures transitive { FarRowsIsTransitive }
    ensures antisymmetric { FarRowsIsAntisymmetric }
{}

pub fn stages_keep_far_rows()
    ensures maps { MapsKeepFarRows }
    ensures filters { FiltersKeepFarRows }
    ensures takes { TakesKeepFarRows }
    ensures drops { DropsKeepFarRows }
    ensures takes_while { TakeWhilesKeepFarRows }
    ensures scans { ScansKeepFarRows }
    ensures follows { RowsThatFollowKeepFarRows }
    ensures joins { JoinedRowsKeepFarRows }
    ensures zips { ZippedRowsKeepFarRows }
    ensures finishes { TerminalsKeepFar }
{}

pub fn joined_rows_depend_on_inner_lists()
    ensures joins { JoinedRowsDependOnInnerLists }
    ensures sums { SumsDependOnInnerLists ℕ }
    ensures sums_of_lists { SumsDependOnInnerLists (List ℕ) }
{}

pub fn sums_grow_with_their_rows()
    ensures { SumsGrowWithTheirRows }
{}

// ---- values

pub fn expressions_read_bound_words_alone()
    ensures expressions { ExpressionsReadBoundWordsAlone }
    ensures rows { RowsReadBoundWordsAlone }
    ensures wider { BoundExpressionsStayBound }
    ensures wider_rows { BoundRowsStayBound }
{}

pub fn undivided_expressions_have_values()
    ensures expressions { UndividedExpressionsHaveValues }
    ensures rows { UndividedRowsHaveValues }
{}

pub fn values_are_words()
    ensures ints { IntInputsAreWords }
    ensures items { ItemsAreWords }
    ensures few_items { ArraysHaveFewItems }
    ensures expressions { ValuesAreWords }
    ensures rows { RowValuesAreWords }
    ensures widths { RowValuesHaveTheirWidth }
{}

pub fn rows_have_their_width()
    ensures streams { StreamsHaveRowsOfTheirWidth }
    ensures side_by_side { RowsSideBySideAreARow }
    ensures each { EachOfRowsIsARow }
{}

pub fn typed_streams_read_their_scopes()
    ensures streams { TypedStreamsReadTheirScopes }
    ensures widths { TypedStreamsHaveTheWidthOfTheirKinds }
    ensures few { StreamsAreAtMostSoWide }
    ensures programs { TypedProgramsReadTheirScopes }
    ensures rows { TypedStreamsHaveRowsOfTheirKinds }
{
    typed_expressions_read_the_scope();
}

// ---- counting

pub fn ranges_and_counts_go_by_one()
    ensures range_goes_on { RangesGoUpByOne }
    ensures range_is_over { RangesEndAtTheirBound }
    ensures count_goes_on { CountsGoDownByOne }
    ensures count_is_over { CountsEndAtZero }
    ensures low_words { LowWordsAreOrderedAsNumbers }
{}
