ghost use Rattle.std.specs.Prelude.{◌≡◌, slice_get, option_map, Some};
ghost use Rattle.case_front.specs.Members.{members_of, plain_member, needed, may_miss};

use crate::member::{Kind, Member};

/// The members that the parameters of a method have. Several methods have the same.
#[derive(Clone, Copy)]
pub(crate) enum Members {
    Nothing,
    View,
    ViewAndPath,
    PathIfAny,
    DomainAndChanges,
    Edit,
    Chars,
    TwoNumbers,
    ThreeNumbers,
    FourNumbers,
    Touch,
    Line,
    Search,
    Match,
}

impl Members {
    /// The member at a place.
    pub(crate) fn at(self, place: usize) -> Option<Member>
        ensures { option_map plain_member result ≡ slice_get (members_of self) place }
    {
        match place {
            0 => self.first(),
            1 => self.second(),
            2 => self.third(),
            3 => self.fourth(),
            _ => None,
        }
    }

    fn first(self) -> Option<Member>
        ensures { option_map plain_member result ≡ slice_get (members_of self) 0 }
    {
        match self {
            Members::Nothing => None,
            Members::View | Members::ViewAndPath | Members::Edit => needed("view_id", Kind::Word),
            Members::PathIfAny => may_miss("file_path", Kind::Word),
            Members::DomainAndChanges => needed("domain", Kind::Any),
            Members::Chars | Members::Search => needed("chars", Kind::Word),
            Members::TwoNumbers | Members::ThreeNumbers | Members::FourNumbers => {
                needed("0", Kind::Whole)
            }
            Members::Touch | Members::Line => needed("line", Kind::Whole),
            Members::Match => may_miss("wrap_around", Kind::Truth),
        }
    }

    fn second(self) -> Option<Member>
        ensures { option_map plain_member result ≡ slice_get (members_of self) 1 }
    {
        match self {
            Members::ViewAndPath => needed("file_path", Kind::Word),
            Members::DomainAndChanges => needed("changes", Kind::Object),
            Members::Edit => needed("method", Kind::Word),
            Members::TwoNumbers | Members::ThreeNumbers | Members::FourNumbers => {
                needed("1", Kind::Whole)
            }
            Members::Touch => needed("col", Kind::Whole),
            Members::Search => may_miss("case_sensitive", Kind::Truth),
            Members::Match => may_miss("allow_same", Kind::Truth),
            _ => None,
        }
    }

    fn third(self) -> Option<Member>
        ensures { option_map plain_member result ≡ slice_get (members_of self) 2 }
    {
        match self {
            Members::Edit => may_miss("params", Kind::Any),
            Members::ThreeNumbers | Members::FourNumbers => needed("2", Kind::Whole),
            Members::Touch => needed("ty", Kind::Word),
            Members::Search => may_miss("regex", Kind::Truth),
            _ => None,
        }
    }

    fn fourth(self) -> Option<Member>
        ensures { option_map plain_member result ≡ slice_get (members_of self) 3 }
    {
        match self {
            Members::FourNumbers => needed("3", Kind::Whole),
            Members::Search => may_miss("whole_words", Kind::Truth),
            _ => None,
        }
    }
}

fn needed(name: &'static str, kind: Kind) -> Option<Member>
    ensures { option_map plain_member result ≡ Some (needed name.now kind) }
{
    Some(Member {
        name,
        kind,
        optional: false,
    })
}

fn may_miss(name: &'static str, kind: Kind) -> Option<Member>
    ensures { option_map plain_member result ≡ Some (may_miss name.now kind) }
{
    Some(Member {
        name,
        kind,
        optional: true,
    })
}
