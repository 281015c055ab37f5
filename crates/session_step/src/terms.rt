/// What a session is made with.
#[derive(Clone, Copy)]
pub struct Terms {
    /// How many plugins there are.
    pub plugins: u32,
    /// The most characters that may be inserted into each document, what it was loaded with not counted.
    pub limit: u64,
}
