ghost use Rattle.std.specs.Prelude.{◌≡◌, [], ◌∷◌, ◌++◌};
ghost use Rattle.std.specs.Str.{encode_utf8_all};
ghost use Rattle.json_rpc.specs.Line.{line_feed};
ghost use Rattle.entry_lines.specs.PluginAnswer.{EndsInLf};

use plain_text::Text;

/// The line without its LF, with no copy.
pub fn without_lf(line: Text) -> Text
    requires { EndsInLf (encode_utf8_all line) }
    ensures { encode_utf8_all result ++ line_feed ∷ [] ≡ encode_utf8_all line }
{
    let mut text = line.into_string();
    text.truncate(text.len() - 1);
    Text::from_string(text)
}
