/// Why no turn comes over a link any more. Where several are true, the one whose bytes come first is told.
#[derive(Clone, Copy, Debug, PartialEq, Eq)]
pub enum LinkEnd {
    /// The link had nothing left.
    Ended,
    /// A pull failed, and the link counted that.
    PullFailed,
    /// A push failed, and the link counted that.
    PushFailed,
    /// 2^24 bytes without LF stood in one line.
    TooLong,
    /// 2^16 lines were pulled in one turn.
    TooMany,
    /// A line was not UTF-8.
    NotText,
    /// Memory ran out. It alone has no cause in the bytes and calls of the link.
    NoMemory,
}
