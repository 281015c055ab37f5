/// The arms of a dispatch: the value of each row in order, and another value for every other row.
///
/// It makes one `match`, of at most a hundred rows, and evaluates the value of the row alone. With a table and its
/// values in the same order a dispatch is
///
/// ```text
/// let Ok(table) = Cases::<3>::new("copy cut paste ") else {
///     unreachable!()
/// };
/// let row = table.find(name)?;
/// Some(arms!(row => Command::Copy, Command::Cut, Command::Paste; else unreachable!()))
/// ```
///
/// The check computes that the text is a table, and `find` ensures that the row is below the number of names.
#[macro_export]
macro_rules! arms {
    (@ $row:expr, $other:expr, [$($done:tt)*] [$($numbers:literal)*]) => {
        match $row {
            $($done)*
            _ => $other,
        }
    };
    (@ $row:expr, $other:expr, [$($done:tt)*] [$number:literal $($numbers:literal)*] $value:expr $(, $values:expr)*) => {
        $crate::arms!(@ $row, $other, [$($done)* $number => $value,] [$($numbers)*] $($values),*)
    };
    ($row:expr => $($value:expr),+ $(,)?; else $other:expr) => {
        $crate::arms!(@ $row, $other, [] [
            0 1 2 3 4 5 6 7 8 9 10 11 12 13 14 15 16 17 18 19 20 21 22 23 24 25 26 27 28 29 30 31 32 33
            34 35 36 37 38 39 40 41 42 43 44 45 46 47 48 49 50 51 52 53 54 55 56 57 58 59 60 61 62 63 64
            65 66 67 68 69 70 71 72 73 74 75 76 77 78 79 80 81 82 83 84 85 86 87 88 89 90 91 92 93 94 95
            96 97 98 99
        ] $($value),+)
    };
}
