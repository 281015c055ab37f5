ghost use Rattle.std.specs.Prelude.{◌≡◌, IfOk, option_map};
ghost use Rattle.case_lines.specs.Quoted.{meant_by, unquoted};

use std::alloc::{AllocError, Global};

/// The bytes that a text stands for; `None` where a backslash has none of its marks after it.
pub fn unquoted(alloc: Global, written: &[u8]) -> Result<Option<Vec<u8>>, AllocError>
    ensures { IfOk result (λ text. option_map (λ bytes. bytes.items) text ≡ unquoted written.now) }
{
    let mut text = Vec::new(alloc);
    let mut is_marked = false;
    for byte in written {
        if is_marked {
            let Some(meant) = meant_by(*byte) else {
                return Ok(None);
            };
            text.push(meant)?;
            is_marked = false;
        } else if *byte == b'\\' {
            is_marked = true;
        } else {
            text.push(*byte)?;
        }
    }
    if is_marked { Ok(None) } else { Ok(Some(text)) }
}

/// What a byte after a backslash stands for.
fn meant_by(mark: u8) -> Option<u8>
    ensures { result ≡ meant_by mark }
{
    match mark {
        b'n' => Some(b'\n'),
        b't' => Some(b'\t'),
        b's' => Some(b' '),
        b'\\' => Some(b'\\'),
        _ => None,
    }
}
