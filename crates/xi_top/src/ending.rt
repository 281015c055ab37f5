/// Why a run ended before its input did.
#[derive(Clone, Copy)]
pub enum Ending {
    /// There was no memory for a line.
    NoMemory,
    /// The source failed.
    SourceFault,
    /// The sink failed.
    SinkFault,
    /// As many lines were taken as a run takes.
    TooMany,
    /// A line had as many bytes without LF as none may have.
    TooLong,
}
