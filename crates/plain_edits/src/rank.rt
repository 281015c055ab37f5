ghost use Rattle.std.specs.Prelude.{◌≡◌};
ghost use Rattle.plain_edits.specs.Rank.{is_lower};

/// What orders insertions at one gap: that of the higher rank stands right. Neither number has a unit.
#[derive(Clone, Copy, Debug, PartialEq, Eq)]
pub struct Rank {
    /// What an edit asks for itself.
    pub priority: u32,
    /// The number of the caller that made the edit, which decides between equal priorities; 0 is the front end.
    pub author: u32,
}

impl Rank {
    pub fn is_lower(self, other: Rank) -> bool
        ensures { result ≡ is_lower self other }
    {
        self.priority < other.priority
            || (self.priority == other.priority && self.author < other.author)
    }
}
