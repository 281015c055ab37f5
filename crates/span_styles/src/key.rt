/// A style by its members, in order.
#[derive(Clone, Copy, PartialEq, Eq, PartialOrd, Ord)]
pub(crate) struct StyleKey {
    pub(crate) fg_color: Option<u32>,
    pub(crate) bg_color: Option<u32>,
    pub(crate) weight: Option<u32>,
    pub(crate) italic: Option<bool>,
    pub(crate) underline: Option<bool>,
}
