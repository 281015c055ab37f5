//! A run without plugins.
ghost use Rattle.std.specs.Prelude.{◌≡◌, vec_len};

use std::alloc::Global;
use xi_top::Plugin;

// No plugins.
pub(crate) fn no_plugins(alloc: Global) -> Vec<Box<dyn Plugin + Send>>
    ensures { vec_len result ≡ 0 }
{
    Vec::new(alloc)
}
