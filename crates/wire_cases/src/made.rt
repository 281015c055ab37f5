//! Values that were made where there was memory for them.

use plain_text::{NoMemory, Text};

/// Whether the value was made, and is this one.
pub(crate) fn equals<T: PartialEq + Drop>(made: Result<T, NoMemory>, value: &T) -> bool {
    match made {
        Ok(made) => made == *value,
        Err(_) => false,
    }
}

/// Whether both were made, and are the same.
pub(crate) fn are_same<T: PartialEq + Drop>(
    first: Result<T, NoMemory>,
    second: Result<T, NoMemory>,
) -> bool {
    match second {
        Ok(second) => equals(first, &second),
        Err(_) => false,
    }
}

/// Whether the text was made, and is this.
pub(crate) fn is(made: Result<Text, NoMemory>, expected: &str) -> bool {
    match made {
        Ok(text) => text.as_str() == expected,
        Err(_) => false,
    }
}
