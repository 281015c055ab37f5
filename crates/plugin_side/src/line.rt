ghost use Rattle.std.specs.Prelude.{◌↔◌, IsTrue};
ghost use Rattle.std.specs.Str.{encode_utf8_all};
ghost use Rattle.json_rpc.specs.Line.{HasNoLf};

use plain_text::Text;

const LINE_FEED: u8 = b'\n';

/// Whether the text has no LF, which is what a turn asks of its lines.
pub fn is_line(line: &Text) -> bool
    ensures { IsTrue result ↔ HasNoLf (encode_utf8_all line.now) }
{
    !line.as_str().as_bytes().contains(&LINE_FEED)
}
