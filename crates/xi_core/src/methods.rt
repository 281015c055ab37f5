use case_front::{
    EDIT_METHODS, FRONT_METHODS, Kind, Member, edit_cases, edit_member, front_cases, front_member,
};
use std::io;

/// Prints the table of methods, one JSON object a line: first the methods that a line names, then those that `edit` names.
///
/// | member | says |
/// |---|---|
/// | `edit` | whether the method is named by `edit` |
/// | `members` | the members of its parameters in the order in which they are read, each with its name, what it has to be, and whether it may be left out or null |
/// | `name` | the method |
/// | `params` | whether its members stand in an `object` or in a `list`, whose items are named by their places from 0; `any` where it has no members |
pub fn print_methods(rt: &HostRuntime) -> io::Result<()> {
    for row in 0..FRONT_METHODS {
        print_method(rt, Place { edit: false, row })?;
    }
    for row in 0..EDIT_METHODS {
        print_method(rt, Place { edit: true, row })?;
    }
    Ok(())
}

/// Where a method stands: in which table, and in which row.
#[derive(Clone, Copy)]
struct Place {
    edit: bool,
    row: usize,
}

impl Place {
    fn name(self) -> Option<&'static str> {
        if self.edit {
            edit_cases().name(self.row)
        } else {
            front_cases().name(self.row)
        }
    }

    fn member(self, place: usize) -> Option<Member> {
        if self.edit {
            edit_member(self.row, place)
        } else {
            front_member(self.row, place)
        }
    }
}

fn print_method(rt: &HostRuntime, method: Place) -> io::Result<()> {
    let Some(name) = method.name() else {
        return Ok(());
    };
    print!(rt; "{{\"edit\":{},\"members\":[", method.edit)?;
    for place in 0.. {
        let Some(member) = method.member(place) else {
            break;
        };
        print_member(rt, place, member)?;
    }
    let params = params_word(method.member(0));
    println!(rt; "],\"name\":\"{name}\",\"params\":\"{params}\"}}")
}

fn print_member(rt: &HostRuntime, place: usize, member: Member) -> io::Result<()> {
    let comma = if place == 0 { "" } else { "," };
    print!(rt;
        "{comma}{{\"kind\":\"{}\",\"name\":\"{}\",\"optional\":{}}}",
        kind_word(member.kind),
        member.name,
        member.optional
    )
}

/// Where the members stand, the first of which is this.
fn params_word(first: Option<Member>) -> &'static str {
    match first {
        Some(member) if member.name == "0" => "list",
        Some(_) => "object",
        None => "any",
    }
}

fn kind_word(kind: Kind) -> &'static str {
    match kind {
        Kind::Word => "text",
        Kind::Whole => "whole number",
        Kind::Truth => "truth",
        Kind::Object => "object",
        Kind::Any => "any",
    }
}
