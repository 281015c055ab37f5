ghost use Rattle.std.specs.Prelude.{◌≡◌, ◌++◌, IfOk, IsAscii, OnOk, decimal};
ghost use Rattle.entry_lines.specs.ViewId.{view_id_of};

use plain_text::{NoMemory, Text};
use std::alloc::Global;

/// The id of the view with this number; the first is 1.
pub fn view_id_of(alloc: Global, n: u64) -> Result<Text, NoMemory>
    ensures { IfOk result (λ id. id ≡ view_id_of n) }
{
    numbered(alloc, "view-id-", n)
}

/// A text of ASCII, and a number after it.
pub fn numbered(alloc: Global, front: &str, n: u64) -> Result<Text, NoMemory>
    requires { IsAscii front.now }
    ensures { IfOk result (λ text. text ≡ front.now ++ decimal n) }
{
    let mut text = Text::from_ascii(alloc, front)?;
    push_number(&mut text, alloc, n)?;
    Ok(text)
}

/// Puts a number at the end, in decimal.
fn push_number(text: &mut Text, alloc: Global, n: u64) -> Result<(), NoMemory>
    ensures { OnOk result (text.new ≡ text.old ++ decimal n) }
{
    text.push_str(n.to_string(alloc)?.as_str())
}
