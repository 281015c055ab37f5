use subset_runs::Subset;

/// An edit in positions of the union. Both subsets have the length of the union after the edit, which is that of the union before
/// and the count of `inserted`.
#[derive(Drop)]
pub struct RevEdit {
    pub base: u64,
    pub priority: u32,
    pub group: u64,
    pub author: u32,
    pub inserted: Subset,
    pub deleted: Subset,
}
