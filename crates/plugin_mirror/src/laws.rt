//! Laws of books. Each function does nothing: its clause is the law, and its proof proves it.

ghost use Rattle.plugin_mirror.specs.Laws.{BooksSayTexts, PagesAreWholeInTime};

/// Who tells each view's texts as they follow from each other, and answers asks by pieces of revision 0, is always taken without a fault
/// but want of memory; and each page that is whole has the last revision told, and its text.
pub fn books_say_texts()
    ensures { BooksSayTexts }
{}

/// A page of n bytes is whole after n / (piece - 3) + 1 chunks, each the longest piece of the text from where the page ends: all but the
/// last have at least all but three bytes of a piece.
pub fn pages_are_whole_in_time()
    ensures { PagesAreWholeInTime }
{}
