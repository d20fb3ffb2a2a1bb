//! What holds of the definitions.

ghost use Rattle.sql_bound.specs.Laws.{CopiesWithoutParameters, LeavesNoParameter, ParametersAreDecimal};

/// The names of parameters are `?` and a number in decimal, from 1 to 32766.
pub fn parameters_are_decimal()
    ensures { ParametersAreDecimal }
{}

/// A statement with enough values has no parameter left, and one without parameters stays as it is.
pub fn parameters_are_replaced()
    ensures none_left { LeavesNoParameter }
    ensures same { CopiesWithoutParameters }
{}
