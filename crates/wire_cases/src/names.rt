//! Tables of names, and the dispatch by them.

use case_front::{Kind, Member, edit_cases, edit_member, front_cases, front_member};
use case_table::{BadCase, Cases, arms};

#[derive(Clone, Copy, PartialEq, Eq)]
enum Command {
    Copy,
    Cut,
    Paste,
}

/// The command of a name. That the text is a table, and that each row has its command, is proved.
fn command_of(name: &str) -> Option<Command> {
    let Ok(table) = Cases::<3>::new("copy cut paste ") else {
        unreachable!()
    };
    let row = table.find(name)?;
    Some(arms!(row => Command::Copy, Command::Cut, Command::Paste; else unreachable!()))
}

/// Whether this is why the text is no table of two names.
fn is_refused(text: &str, bad: Option<BadCase>) -> bool {
    Cases::<2>::new(text).err() == bad
}

/// Whether this is why the text is no table of no name.
fn is_refused_for_none(text: &str, bad: Option<BadCase>) -> bool {
    Cases::<0>::new(text).err() == bad
}

#[test]
fn text_that_is_no_table_is_refused_at_its_first_fault(rt: HostRuntime) {
    assert!(rt; is_refused("b a ", Some(BadCase(1))));
    assert!(rt; is_refused("a b c ", Some(BadCase(2))));
    assert!(rt; is_refused("a b", Some(BadCase(1))));
    assert!(rt; is_refused("a a ", Some(BadCase(1))));
    assert!(rt; is_refused("a  b ", Some(BadCase(1))));
}

#[test]
fn text_that_begins_with_no_name_is_refused(rt: HostRuntime) {
    assert!(rt; is_refused("", Some(BadCase(0))));
    assert!(rt; is_refused(" a ", None));
    assert!(rt; is_refused("a \u{e9} ", None));
    assert!(rt; is_refused_for_none("", None));
    assert!(rt; is_refused_for_none(" ", Some(BadCase(0))));
}

fn leads(name: &str, wanted: Option<Command>) -> bool {
    command_of(name) == wanted
}

#[test]
fn dispatch_goes_by_the_row(rt: HostRuntime) {
    assert!(rt; leads("copy", Some(Command::Copy)));
    assert!(rt; leads("paste", Some(Command::Paste)));
    assert!(rt; leads("past", None));
}

fn edit_row_is(name: &str, row: Option<usize>) -> bool {
    edit_cases().find(name) == row
}

fn front_row_is(name: &str, row: Option<usize>) -> bool {
    front_cases().find(name) == row
}

const PARAMS: Member = Member {
    name: "params",
    kind: Kind::Any,
    optional: true,
};

#[test]
fn methods_and_members_are_found_by_the_table(rt: HostRuntime) {
    assert!(rt; edit_row_is("undo", Some(44)));
    assert!(rt; edit_row_is("no_such", None));
    assert!(rt; front_row_is("edit", Some(2)));
    assert!(rt; front_member(2, 2) == Some(PARAMS));
    assert!(rt; edit_member(44, 0).is_none());
}
