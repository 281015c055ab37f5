/// What a worker is to do. It is said once of each.
#[derive(Clone, Copy, Debug, PartialEq, Eq)]
pub enum Errand {
    /// It gives the plugin its turns.
    Serve,
    /// It hands pass and plugin back untouched.
    Leave,
}
