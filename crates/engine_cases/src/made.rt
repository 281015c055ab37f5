//! Values that were made where nothing stood against it. Their types are opaque here, so that a test owns no engine and no edit.

use plain_text::Text;
use std::alloc::Global;

// Whether the value was made, and stands the test.
pub(crate) fn holds<T: Drop, E: Drop, F: FnOnce(Global, &mut T) -> bool>(
    alloc: Global,
    made: Result<T, E>,
    test: F,
) -> bool
    requires { F.IsAlwaysCallable test }
{
    match made {
        Ok(mut value) => test(alloc, &mut value),
        Err(_) => false,
    }
}

// Whether the value was made.
pub(crate) fn is_made<T: Drop, E: Drop>(made: Result<T, E>) -> bool {
    made.is_ok()
}

// Whether this was made.
pub(crate) fn gives<T: PartialEq + Drop, E: Drop>(made: Result<T, E>, value: T) -> bool {
    match made {
        Ok(found) => found == value,
        Err(_) => false,
    }
}

// Whether nothing was made, for this fault.
pub(crate) fn fails<T: Drop, E: PartialEq + Drop>(made: Result<T, E>, fault: E) -> bool {
    match made {
        Ok(_) => false,
        Err(found) => found == fault,
    }
}

// Whether the text was made, and is this.
pub(crate) fn reads<E: Drop>(made: Result<Text, E>, shown: &str) -> bool {
    match made {
        Ok(text) => text.as_str() == shown,
        Err(_) => false,
    }
}
