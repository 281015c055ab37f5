ghost use Rattle.std.specs.Prelude.{◌≡◌, ◌≤◌, ◌-◌, length, min, drop};
ghost use Rattle.outside.specs.Source.{filled};
ghost use Rattle.storm_lines.specs.Lines.{letter_of, line_bytes, storm_line_of};

const OPENING: &[u8] = b"{\"id\":0,\"method\":\"new_view\",\"params\":{}}\n";

// The line of one letter, which stands at `LETTER_AT`.
const INSERT: [u8; 92] =
    *b"{\"method\":\"edit\",\"params\":{\"method\":\"insert\",\"params\":{\"chars\":\"a\"},\"view_id\":\"view-id-1\"}}\n";

const LETTER_AT: usize = 64;

const INSERT_NEWLINE: &[u8] =
    b"{\"method\":\"edit\",\"params\":{\"method\":\"insert_newline\",\"params\":[],\"view_id\":\"view-id-1\"}}\n";

const DELETE_BACKWARD: &[u8] =
    b"{\"method\":\"edit\",\"params\":{\"method\":\"delete_backward\",\"params\":[],\"view_id\":\"view-id-1\"}}\n";

const DELETE_FORWARD: &[u8] =
    b"{\"method\":\"edit\",\"params\":{\"method\":\"delete_forward\",\"params\":[],\"view_id\":\"view-id-1\"}}\n";

const MOVE_LEFT: &[u8] =
    b"{\"method\":\"edit\",\"params\":{\"method\":\"move_left\",\"params\":[],\"view_id\":\"view-id-1\"}}\n";

const MOVE_UP: &[u8] =
    b"{\"method\":\"edit\",\"params\":{\"method\":\"move_up\",\"params\":[],\"view_id\":\"view-id-1\"}}\n";

const MOVE_RIGHT: &[u8] =
    b"{\"method\":\"edit\",\"params\":{\"method\":\"move_right\",\"params\":[],\"view_id\":\"view-id-1\"}}\n";

const UNDO: &[u8] =
    b"{\"method\":\"edit\",\"params\":{\"method\":\"undo\",\"params\":[],\"view_id\":\"view-id-1\"}}\n";

const REDO: &[u8] =
    b"{\"method\":\"edit\",\"params\":{\"method\":\"redo\",\"params\":[],\"view_id\":\"view-id-1\"}}\n";

/// A line of the storm.
#[derive(Clone, Copy)]
pub enum StormLine {
    /// Opens the view that all others edit, on an empty text.
    Opening,
    /// Types this letter, a byte of ASCII.
    Insert(u8),
    InsertNewline,
    DeleteBackward,
    DeleteForward,
    MoveLeft,
    MoveUp,
    MoveRight,
    Undo,
    Redo,
}

impl StormLine {
    /// The line of a word.
    pub fn of_word(word: u32) -> StormLine
        ensures { result ≡ storm_line_of word }
    {
        match word % 16 {
            8 => StormLine::InsertNewline,
            9 => StormLine::DeleteBackward,
            10 => StormLine::DeleteForward,
            11 => StormLine::MoveLeft,
            12 => StormLine::MoveUp,
            13 => StormLine::MoveRight,
            14 => StormLine::Undo,
            15 => StormLine::Redo,
            _ => StormLine::Insert(letter_of(word)),
        }
    }

    /// Puts as many of the line's bytes from this place on to the front of the buffer as it has room for, and says how many.
    pub fn put(self, at: usize, buf: &mut [u8]) -> usize
        requires { at ≤ length (line_bytes self) }
        ensures count { result ≡ min (length buf.old) (length (line_bytes self) - at) }
        ensures put { buf.new ≡ filled buf.old (drop at (line_bytes self)) result }
    {
        match self {
            StormLine::Opening => put_from(OPENING, at, buf),
            StormLine::Insert(letter) => {
                let mut line = INSERT;
                line[LETTER_AT] = letter;
                put_from(&line, at, buf)
            }
            StormLine::InsertNewline => put_from(INSERT_NEWLINE, at, buf),
            StormLine::DeleteBackward => put_from(DELETE_BACKWARD, at, buf),
            StormLine::DeleteForward => put_from(DELETE_FORWARD, at, buf),
            StormLine::MoveLeft => put_from(MOVE_LEFT, at, buf),
            StormLine::MoveUp => put_from(MOVE_UP, at, buf),
            StormLine::MoveRight => put_from(MOVE_RIGHT, at, buf),
            StormLine::Undo => put_from(UNDO, at, buf),
            StormLine::Redo => put_from(REDO, at, buf),
        }
    }
}

/// The letter of a word that types one.
fn letter_of(word: u32) -> u8
    ensures { result ≡ letter_of word }
{
    b'a' + (word / 16 % 26) as u8
}

/// Puts as many of these bytes from this place on to the front of the buffer as it has room for, and says how many.
fn put_from(bytes: &[u8], at: usize, buf: &mut [u8]) -> usize
    requires { at ≤ length bytes.now }
    ensures count { result ≡ min (length buf.old) (length bytes.now - at) }
    ensures put { buf.new ≡ filled buf.old (drop at bytes.now) result }
{
    let rest = &bytes[at..];
    let count = buf.len().min(rest.len());
    buf[..count].copy_from_slice(&rest[..count]);
    count
}
