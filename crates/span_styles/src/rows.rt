//! Worked rows, each the contract of a function: what the definitions give in small cases.

ghost use Rattle.span_styles.specs.Rows.{SpansAreSet, StylesStay};

/// Styles stay with their characters through an edit.
pub fn styles_stay()
    ensures { StylesStay }
{}

/// Spans clear their range and then style it.
pub fn spans_are_set()
    ensures { SpansAreSet }
{}
