/// The `n` old lines from `old` on are the partners of the new lines from `new` on.
#[derive(Clone, Copy, PartialEq, Eq)]
pub struct Stay {
    pub old: u64,
    pub new: u64,
    pub n: u64,
    /// Whether their logical lines are not touched.
    pub same: bool,
}
