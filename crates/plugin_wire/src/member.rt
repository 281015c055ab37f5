ghost use Rattle.std.specs.Prelude.{◌≡◌};
ghost use Rattle.plugin_wire.specs.Asked.{member_name};

/// The members of what a plugin asks.
#[derive(Clone, Copy)]
pub enum Member {
    ViewId,
    Rev,
    Delta,
    Priority,
    AfterCursor,
    Author,
    UndoGroup,
    Start,
    MaxSize,
    Len,
    Spans,
    Msg,
}

impl Member {
    pub fn name(self) -> &'static str
        ensures { result.now ≡ member_name self }
    {
        match self {
            Member::ViewId => "view_id",
            Member::Rev => "rev",
            Member::Delta => "delta",
            Member::Priority => "priority",
            Member::AfterCursor => "after_cursor",
            Member::Author => "author",
            Member::UndoGroup => "undo_group",
            Member::Start => "start",
            Member::MaxSize => "max_size",
            Member::Len => "len",
            Member::Spans => "spans",
            Member::Msg => "msg",
        }
    }
}
