use crate::text::TextState;
use plain_edits::UnitDelta;
use xi_plain::Notice;

/// What a revision makes: the text after it, the change of the head text, and the notice of it, where there are plugins that read it.
#[derive(Drop)]
pub struct Revised {
    pub text: TextState,
    pub units: UnitDelta,
    /// A text does not know the id of a view, so `view` is empty.
    pub notice: Option<Notice>,
}
