/// What a member has to be.
#[derive(Clone, Copy, Debug, PartialEq, Eq)]
pub enum Kind {
    /// A text.
    Word,
    /// A whole number.
    Whole,
    /// `true` or `false`.
    Truth,
    /// An object.
    Object,
    /// Any value, null too.
    Any,
}

/// A member of the parameters of a method.
#[derive(Clone, Copy, Debug, PartialEq, Eq)]
pub struct Member {
    /// Its name. A number names the item of a list at that place.
    pub name: &'static str,
    pub kind: Kind,
    /// Whether it may be left out, or be null.
    pub optional: bool,
}
