/// How a session stands.
#[derive(Clone, Copy)]
pub enum Stage {
    /// It takes lines.
    Serves,
    /// An entry was not sent: it takes the closing one alone.
    Broken,
    /// The closing entry stands.
    Closed,
}
