use crate::event::Body;
use doc_view::{Scrolling, TextLeft};
use plain_text::Run;
use xi_plain::Notice;

/// What is said of an event beside its update: what it left of the text, which lines it requests, what it is answered, where the front end
/// scrolls, and what the plugins are told.
#[derive(Drop)]
pub(crate) struct Said {
    pub(crate) text: TextLeft,
    pub(crate) request: Run,
    pub(crate) body: Body,
    pub(crate) scrolling: Scrolling,
    pub(crate) notice: Option<Notice>,
}
