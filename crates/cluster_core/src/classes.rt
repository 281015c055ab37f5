ghost use Rattle.std.specs.Prelude.{◌≡◌};
ghost use Rattle.cluster_core.specs.Classes.{class_of};

/// What word motions tell apart.
#[derive(Clone, Copy, Debug, PartialEq, Eq)]
pub enum Class {
    /// LF.
    Feed,
    /// A space, a tab or CR.
    Blank,
    /// ASCII punctuation but `_`.
    Punct,
    /// Any other character.
    Other,
}

/// The class of a character. It takes no memory.
pub fn class_of(c: char) -> Class
    ensures { result ≡ class_of c }
{
    if c == '\n' {
        Class::Feed
    } else if c == ' ' || c == '\t' || c == '\r' {
        Class::Blank
    } else if c.is_ascii_punctuation() && c != '_' {
        Class::Punct
    } else {
        Class::Other
    }
}
