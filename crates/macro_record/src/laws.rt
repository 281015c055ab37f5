//! Laws of tapes. Each function does nothing: its clause is the law, and its proof proves it.

ghost use Rattle.macro_record.specs.Laws.{ATapeIsWhatWasGiven, AWholeTapeWasWhole, AllOnceIsTheTape, PlayedLinesAreTheLines};

/// A tape is the first pieces that were given since it began, and all of them while it is whole.
pub fn a_tape_is_what_was_given()
    ensures { ATapeIsWhatWasGiven }
{}

/// A tape that is whole was whole before.
pub fn a_whole_tape_was_whole()
    ensures { AWholeTapeWasWhole }
{}

/// All lines of a tape, played once, are the tape, with an LF behind it where it lacks one.
pub fn all_once_is_the_tape()
    ensures { AllOnceIsTheTape }
{}

/// The lines of what is played are those lines, each ended by LF, so many times over.
pub fn played_lines_are_the_lines()
    ensures { PlayedLinesAreTheLines }
{}
