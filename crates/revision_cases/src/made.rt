//! Values that were made where nothing stood against it. Their types are opaque here, so that a test owns no list.

use std::alloc::Global;

// Whether the value was made, and stands the test.
pub(crate) fn holds<T: Drop, E: Drop, F: FnOnce(Global, &mut T) -> bool>(
    alloc: Global,
    made: Result<T, E>,
    test: F,
) -> bool
    requires { F.IsAlwaysCallable test }
{
    match made {
        Ok(mut value) => test(alloc, &mut value),
        Err(_) => false,
    }
}

// Whether nothing was made, for this fault.
pub(crate) fn fails<T: Drop, E: PartialEq + Drop>(made: Result<T, E>, fault: E) -> bool {
    match made {
        Ok(_) => false,
        Err(found) => found == fault,
    }
}
