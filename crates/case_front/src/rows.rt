ghost use Rattle.std.specs.Prelude.{◌≡◌, ◌<◌, slice_get, option_map, Some};
ghost use Rattle.case_front.specs.Members.{members_of, plain_member};
ghost use Rattle.case_front.specs.Table.{front_table, edit_table, members_in, member_at};

use crate::member::Member;
use crate::members::Members;
use crate::names::{EDIT_METHODS, FRONT_METHODS};
use case_table::arms;

/// The member at a place of a method that a line may name, by its row.
pub fn front_member(row: usize, place: usize) -> Option<Member>
    ensures { option_map plain_member result ≡ member_at front_table row place }
{
    if row < FRONT_METHODS {
        front_members(row).at(place)
    } else {
        None
    }
}

/// The member at a place of a method that `edit` may name, by its row.
pub fn edit_member(row: usize, place: usize) -> Option<Member>
    ensures { option_map plain_member result ≡ member_at edit_table row place }
{
    if row < EDIT_METHODS {
        edit_members(row).at(place)
    } else {
        None
    }
}

fn front_members(row: usize) -> Members
    requires { row < 11 }
    ensures { slice_get (members_in front_table) row ≡ Some (members_of result) }
{
    arms!(row => Members::Nothing, Members::View, Members::Edit, Members::DomainAndChanges,
        Members::PathIfAny, Members::Nothing, Members::Nothing, Members::ViewAndPath,
        Members::Nothing, Members::Nothing, Members::Nothing; else unreachable!())
}

fn edit_members(row: usize) -> Members
    requires { row < 45 }
    ensures { slice_get (members_in edit_table) row ≡ Some (members_of result) }
{
    arms!(row => Members::FourNumbers, Members::Nothing, Members::Nothing, Members::Nothing,
        Members::Nothing, Members::Nothing, Members::Nothing, Members::Nothing,
        Members::ThreeNumbers, Members::Search, Members::Match, Members::Match, Members::Touch,
        Members::Line, Members::Nothing, Members::Chars, Members::Nothing, Members::Nothing,
        Members::Nothing, Members::Nothing, Members::Nothing, Members::Nothing, Members::Nothing,
        Members::Nothing, Members::Nothing, Members::Nothing, Members::Nothing, Members::Nothing,
        Members::Nothing, Members::Nothing, Members::Nothing, Members::Nothing, Members::Nothing,
        Members::Nothing, Members::Nothing, Members::Nothing, Members::Nothing, Members::Nothing,
        Members::Chars, Members::Nothing, Members::TwoNumbers, Members::Nothing,
        Members::TwoNumbers, Members::Nothing, Members::Nothing; else unreachable!())
}
