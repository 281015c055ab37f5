//! Laws of lines on data alone, each the contract of a function.

ghost use Rattle.front_wire.specs.Laws.{MethodsStandAsInTheTable};

/// What each method asks stands under its own name, in the row that the table has for it.
pub fn methods_stand_as_in_the_table()
    ensures { MethodsStandAsInTheTable }
{}
