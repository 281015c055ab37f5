//! Laws of what an entry says on data alone, each the contract of a function.

ghost use Rattle.entry_lines.specs.Laws.{PiecesSayTheirUpdates, ResultsNameTheRequest, ViewIdsDiffer};

/// A piece says its updates, and nothing else in it says one.
pub fn pieces_say_their_updates()
    ensures { PiecesSayTheirUpdates }
{}

/// An answer that tells a result has the id of the request.
pub fn results_name_the_request()
    ensures { ResultsNameTheRequest }
{}

/// Two views have two ids.
pub fn view_ids_differ()
    ensures { ViewIdsDiffer }
{}
