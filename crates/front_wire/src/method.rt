ghost use Rattle.std.specs.Prelude.{◌≡◌, ◌≤◌, ◌^◌, slice_get, option_map, unwrap_or, IfOk};
ghost use Rattle.serde_json.specs.View.{view};
ghost use Rattle.serde_json.specs.Find.{as_str};
ghost use Rattle.case_front.specs.Members.{plain_member};
ghost use Rattle.front_wire.specs.Members.{given, first_bad, text, text_if_any, whole, truth, touch};
ghost use Rattle.front_wire.specs.Method.{members};
ghost use Rattle.front_wire.specs.Fair.{IsText, IsTextIfAny};

use crate::edit::owned;
use crate::member::{found, is_given, taken, text_of, touch_of, whole_of};
use case_front::{Member, edit_member, front_member};
use plain_text::{NoMemory, Text};
use serde_json::Value;
use std::alloc::Global;
use xi_plain::Touch;

/// The most members that a method has.
const MOST_MEMBERS: usize = 4;

/// A table of methods.
#[derive(Clone, Copy)]
pub enum Table {
    /// Those that a line names.
    Line,
    /// Those that `edit` names.
    Edit,
}

/// A method, by its table and its row there.
#[derive(Clone, Copy)]
pub struct Method {
    pub table: Table,
    pub row: usize,
}

impl Method {
    fn member(self, place: usize) -> Option<Member>
        ensures { option_map plain_member result ≡ slice_get (members self) place }
    {
        match self.table {
            Table::Line => front_member(self.row, place),
            Table::Edit => edit_member(self.row, place),
        }
    }

    /// The first member that is missing or of another shape.
    pub fn first_bad(self, params: &Value) -> Option<&'static str>
        ensures { option_map (λ name. name.now) result ≡ first_bad 0 (members self) (view params.now) }
    {
        for place in 0..MOST_MEMBERS {
            let Some(member) = self.member(place) else {
                return None;
            };
            if !is_given(member, found(params, member, place)) {
                return Some(member.name);
            }
        }
        None
    }

    /// What stands there for the member at a place.
    pub fn given(self, params: &Value, place: usize) -> Option<&Value>
        ensures { option_map (λ v. view v.now) result ≡ given (members self) (view params.now) place }
    {
        match self.member(place) {
            Some(member) => found(params, member, place),
            None => None,
        }
    }

    /// The same, moved out.
    pub fn taken(self, params: &mut Value, place: usize) -> Option<Value>
        ensures { option_map view result ≡ given (members self) (view params.old) place }
    {
        match self.member(place) {
            Some(member) => taken(params, member, place),
            None => None,
        }
    }

    /// The text that a member gives, moved out, where there is one.
    pub fn text_if_any(self, params: &mut Value, place: usize) -> Option<Text>
        ensures text { result ≡ text_if_any (given (members self) (view params.old) place) }
        ensures scalars { IsTextIfAny result }
    {
        text_of(self.taken(params, place))
    }

    /// The text that a member gives, moved out.
    pub fn text(self, alloc: Global, params: &mut Value, place: usize) -> Text
        ensures text { result ≡ text (given (members self) (view params.old) place) }
        ensures scalars { IsText result }
    {
        match self.text_if_any(params, place) {
            Some(text) => text,
            None => Text::new(alloc),
        }
    }

    /// The text that a member gives, copied.
    pub fn copied(self, alloc: Global, params: &Value, place: usize) -> Result<Text, NoMemory>
        ensures text { IfOk result (λ copied. copied ≡ text (given (members self) (view params.now) place)) }
        ensures scalars { IfOk result IsText }
    {
        match self.given(params, place).and_then(Value::as_str) {
            Some(text) => owned(alloc, text),
            None => Ok(Text::new(alloc)),
        }
    }

    /// The number that a member gives.
    pub fn whole(self, params: &Value, place: usize) -> u64
        ensures number { result ≡ whole (given (members self) (view params.now) place) }
        ensures range { result ≤ 2 ^ 40 }
    {
        match self.given(params, place) {
            Some(value) => whole_of(value).unwrap_or(0),
            None => 0,
        }
    }

    /// The truth that a member gives, where there is one.
    pub fn truth(self, params: &Value, place: usize) -> Option<bool>
        ensures { result ≡ truth (given (members self) (view params.now) place) }
    {
        match self.given(params, place) {
            Some(value) => value.as_bool(),
            None => None,
        }
    }

    /// The touch that a member gives.
    pub fn touch(self, params: &Value, place: usize) -> Touch
        ensures { result ≡ touch (given (members self) (view params.now) place) }
    {
        match self.given(params, place) {
            Some(value) => touch_of(value).unwrap_or(Touch::Point),
            None => Touch::Point,
        }
    }
}
