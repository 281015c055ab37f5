ghost use Rattle.session_step.specs.Views.{IsPlaceOf};

use doc_session::Doc;
use plain_text::Text;
use std::alloc::Global;
use std::sync::Arc;

/// A view that is open: its id, and its document, which views after an entry share where it rests.
#[derive(Drop)]
pub struct Opened {
    pub id: Text,
    pub doc: Arc<Doc, Global>,
}

/// Where the view with this name stands.
pub fn place_of(held: &[Opened], name: &Text) -> Option<usize>
    ensures { IsPlaceOf held.now name.now result }
{
    let mut at = 0;
    while at < held.len() {
        if name.as_str() == held[at].id.as_str() {
            return Some(at);
        }
        at += 1;
    }
    None
}
