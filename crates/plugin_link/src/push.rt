//! Lines pushed, one after the other.

ghost use Rattle.std.specs.Prelude.{◌≡◌, ◌<◌, ◌≤◌, length, take};
ghost use Rattle.outside.specs.Faults.{Rose};
ghost use Rattle.plugin_link.specs.Turns.{framed, lined, utf8_of};
ghost use Rattle.plugin_link.specs.Link.{Pushes, link_told};
ghost use Rattle.plugin_link.specs.Pushing.{PutsBy};
ghost use Rattle.std.specs.Str.{encode_utf8_all};
ghost use Rattle.std.specs.Prelude.{◌++◌, ◌∷◌, []};

use crate::link::Link;
use outside::Pushed;
use plain_text::Text;

/// Pushes each line with an LF behind it, and one LF more; or a beginning of that, exactly where a push failed.
pub(crate) fn push_turn<L: Link>(link: &mut L, lines: &[Text]) -> Result<(), PushFault>
    ensures { PutsBy result (link_told L.left L.held L.faults link.old) (link_told L.left L.held L.faults link.new)
        (framed (utf8_of lines.now)) }
{
    for line in lines {
        if let Err(fault) = push_line(link, line.as_str().as_bytes()) {
            return Err(fault);
        }
    }
    push_piece(link, b"\n")
}

/// Pushes a line and an LF.
fn push_line<L: Link>(link: &mut L, line: &[u8]) -> Result<(), PushFault>
    ensures { PutsBy result (link_told L.left L.held L.faults link.old) (link_told L.left L.held L.faults link.new)
        (line.now ++ 10 ∷ []) }
{
    push_piece(link, line)?;
    push_piece(link, b"\n")
}

/// A push failed.
#[derive(Clone, Copy)]
pub(crate) struct PushFault;

/// Pushes all bytes of a piece, one part after the other.
fn push_piece<L: Link>(link: &mut L, piece: &[u8]) -> Result<(), PushFault>
    ensures { PutsBy result (link_told L.left L.held L.faults link.old) (link_told L.left L.held L.faults link.new)
        piece.now }
{
    let mut taken = 0;
    while taken < piece.len() {
        match link.push(&piece[taken..]) {
            Pushed::Took(count) => taken += count,
            Pushed::Failed => return Err(PushFault),
        }
    }
    Ok(())
}
