//! What was found out, where there was memory for it.

ghost use Rattle.std.specs.Prelude.{◌≡◌, ◌↔◌, true, Ok};

/// Whether something was found out, and is so. Its fault is opaque here, so that a test owns none.
pub fn is_so<E: Drop>(found: Result<bool, E>) -> bool
    ensures { (result ≡ true) ↔ (found ≡ Ok true) }
{
    match found {
        Ok(is) => is,
        Err(_) => false,
    }
}
