//! Values that were made where there was memory for them.

use plain_text::NoMemory;

// Whether the value was made, and stands the test.
pub(crate) fn passes<T: Drop, F: FnOnce(&T) -> bool>(made: Result<T, NoMemory>, test: F) -> bool
    requires { F.IsAlwaysCallable test }
{
    match made {
        Ok(value) => test(&value),
        Err(_) => false,
    }
}
