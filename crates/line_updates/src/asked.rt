ghost use Rattle.std.specs.Prelude.{◌≡◌};
ghost use Rattle.line_updates.specs.Told.{has_lines};

use doc_layout::Asked;
use line_cache::Mirror;

/// Whether a front end has a screen of so many lines, and each of them that is asked for. It takes the time of the runs of its lines.
pub fn has_asked(had: &Mirror, asked: Asked, len: u64) -> bool
    ensures { result ≡ has_lines had.now asked len }
{
    had.len() == len && had.has_all(asked.window) && had.has_all(asked.request)
}
