/// Some positions in a row that are all members, or all none.
#[derive(Clone, Copy)]
pub struct Stretch {
    pub len: u64,
    pub member: bool,
}
