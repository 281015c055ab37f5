//! Laws of turns. Each function does nothing: its clause is the law, and its proof proves it.

ghost use Rattle.plugin_link.specs.Laws.{TurnsJoin, TurnsGoOn, ATurnIsFirst, ManyTurns};

/// The turns of bytes, each line with its LF and each turn with one LF more, are the bytes up to the last empty line.
pub fn turns_join()
    ensures { TurnsJoin }
{}

/// Bytes that come in two pieces have the turns of both together.
pub fn turns_go_on()
    ensures { TurnsGoOn }
{}

/// Lines with their LFs, and one LF more, are the first turn of what they begin.
pub fn a_turn_is_first()
    ensures { ATurnIsFirst }
{}

/// Before the end the lines given are the first turns of the bytes that the link had, in order, and what it holds more are the lines handed
/// in, each with LF, and one LF after each turn. The link tells what it has left.
pub fn many_turns()
    ensures { ManyTurns }
{}
