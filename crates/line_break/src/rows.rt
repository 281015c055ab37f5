//! Worked rows, each the contract of a function: what the definitions give in small cases.

ghost use Rattle.line_break.specs.Rows.{LineEnd, WrappedLine};

/// The breaks of a line of words, and of lines that are not cut.
pub fn wrapped_line()
    ensures { WrappedLine }
{}

/// The breaks of lines that end in LF, in CR LF and in CR.
pub fn line_end()
    ensures { LineEnd }
{}
