/// What becomes of the columns that moves up and down aim at, where regions are moved by no command.
#[derive(Clone, Copy, PartialEq, Eq)]
pub enum Goals {
    Kept,
    Cleared,
}
