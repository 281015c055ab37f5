use plain_text::Text;
use serde_json::Value;
use xi_plain::Id;

/// A request, or a notification where it has no id.
#[derive(Drop)]
pub struct Rpc {
    /// Whom the answer has to name.
    pub id: Id,

    pub method: Text,

    /// Null where the line has none.
    pub params: Value,
}
