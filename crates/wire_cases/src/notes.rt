//! Notes to a front end, as they are printed.

use crate::made::is;
use plain_edits::Style;
use plain_screen::{Line, Op, Restyle, Triple, Update};
use plain_text::{List, NoMemory, Text};
use std::alloc::Global;
use view_update::{write_alert, write_scroll, write_style, write_update};

/// A line with these carets and styles.
fn line(
    alloc: Global,
    text: &str,
    ln: Option<u64>,
    cursor: &[u64],
    styles: &[Triple],
) -> Result<Line, NoMemory> {
    let text = Text::from_str(alloc, text)?;
    let cursor = cursor.to_vec(alloc)?;
    let styles = styles.to_vec(alloc)?;
    Ok(Line {
        text,
        ln,
        cursor: List::from_vec(cursor),
        styles: List::from_vec(styles),
    })
}

/// The operation that adds one line.
fn one_line(alloc: Global, new: Line) -> Result<Op, NoMemory> {
    let mut lines = List::new(alloc);
    lines.push(new)?;
    Ok(Op::Ins { lines })
}

/// An update that only adds this line.
fn adding(alloc: Global, new: Line, pristine: bool) -> Result<Update, NoMemory> {
    let mut ops = List::new(alloc);
    ops.push(one_line(alloc, new)?)?;
    Ok(Update { ops, pristine })
}

/// The first update of a view: one empty line with a caret.
pub(crate) fn opening(alloc: Global) -> Result<Update, NoMemory> {
    let new = line(alloc, "", Some(1), &[0], &[])?;
    adding(alloc, new, true)
}

/// A copy of each kind, and each other operation that counts lines.
fn counts(alloc: Global) -> Result<List<Op>, NoMemory> {
    let mut ops = List::new(alloc);
    ops.push(Op::Copy { n: 4, ln: Some(7) })?;
    ops.push(Op::Copy { n: 1, ln: None })?;
    ops.push(Op::Skip { n: 2 })?;
    ops.push(Op::Invalidate {
        n: 18446744073709551615,
    })?;
    Ok(ops)
}

const STYLES: [Triple; 3] = [
    Triple {
        start: 0,
        len: 3,
        id: 0,
    },
    Triple {
        start: -2,
        len: 1,
        id: 18446744073709551615,
    },
    Triple {
        start: -9223372036854775808,
        len: 0,
        id: 2,
    },
];

fn two_lines(alloc: Global) -> Result<List<Line>, NoMemory> {
    let mut lines = List::new(alloc);
    lines.push(line(alloc, "abc\n", Some(12), &[1, 4], &STYLES)?)?;
    lines.push(line(alloc, "d", None, &[], &[])?)?;
    Ok(lines)
}

/// An update of one old line, with these carets and styles.
fn restyling(
    alloc: Global,
    ln: Option<u64>,
    cursor: &[u64],
    styles: &[Triple],
) -> Result<Op, NoMemory> {
    let Line {
        text: _,
        ln,
        cursor,
        styles,
    } = line(alloc, "", ln, cursor, styles)?;
    let mut lines = List::new(alloc);
    lines.push(Restyle { cursor, styles })?;
    Ok(Op::Update { ln, lines })
}

/// Updates of old lines: with a number, without one, and of none.
fn restylings(alloc: Global) -> Result<Update, NoMemory> {
    let mut ops = List::new(alloc);
    ops.push(restyling(alloc, Some(18446744073709551615), &[1, 4], &STYLES)?)?;
    ops.push(restyling(alloc, None, &[], &[])?)?;
    ops.push(Op::Update {
        ln: Some(1),
        lines: List::new(alloc),
    })?;
    Ok(Update {
        ops,
        pristine: true,
    })
}

/// An update with each operation that counts or adds lines.
fn each_operation(alloc: Global) -> Result<Update, NoMemory> {
    let lines = two_lines(alloc)?;
    let mut ops = counts(alloc)?;
    ops.push(Op::Ins { lines })?;
    ops.push(Op::Ins {
        lines: List::new(alloc),
    })?;
    Ok(Update {
        ops,
        pristine: false,
    })
}

/// A line whose text has characters that JSON escapes, and some that it doesn't.
fn odd_text(alloc: Global) -> Result<Update, NoMemory> {
    let text = "\"\\/\t\u{1}\u{1f}\u{7f}\u{e9}\u{2028}\u{1f600}\r\n";
    let new = line(alloc, text, None, &[], &[])?;
    adding(alloc, new, false)
}

/// The line of an update of a view.
fn written(alloc: Global, view: &str, update: Result<Update, NoMemory>) -> Result<Text, NoMemory> {
    let update = update?;
    let view = Text::from_str(alloc, view)?;
    write_update(alloc, &view, &update)
}

pub(crate) const OPENING: &str =
    "{\"method\":\"update\",\"params\":{\"update\":{\"ops\":[{\"lines\":[{\"cursor\":[0],\"ln\":1,\"styles\":[],\"text\":\"\"}],\"n\":1,\"op\":\"ins\"}],\"pristine\":true},\"view_id\":\"view-id-1\"}}\n";

const EACH_OPERATION: &str =
    "{\"method\":\"update\",\"params\":{\"update\":{\"ops\":[{\"ln\":7,\"n\":4,\"op\":\"copy\"},{\"n\":1,\"op\":\"copy\"},{\"n\":2,\"op\":\"skip\"},{\"n\":18446744073709551615,\"op\":\"invalidate\"},{\"lines\":[{\"cursor\":[1,4],\"ln\":12,\"styles\":[0,3,0,-2,1,18446744073709551615,-9223372036854775808,0,2],\"text\":\"abc\\n\"},{\"cursor\":[],\"styles\":[],\"text\":\"d\"}],\"n\":2,\"op\":\"ins\"},{\"lines\":[],\"n\":0,\"op\":\"ins\"}],\"pristine\":false},\"view_id\":\"view-id-20\"}}\n";

const RESTYLINGS: &str =
    "{\"method\":\"update\",\"params\":{\"update\":{\"ops\":[{\"lines\":[{\"cursor\":[1,4],\"styles\":[0,3,0,-2,1,18446744073709551615,-9223372036854775808,0,2]}],\"ln\":18446744073709551615,\"n\":1,\"op\":\"update\"},{\"lines\":[{\"cursor\":[],\"styles\":[]}],\"n\":1,\"op\":\"update\"},{\"lines\":[],\"ln\":1,\"n\":0,\"op\":\"update\"}],\"pristine\":true},\"view_id\":\"view-id-1\"}}\n";

const ODD_TEXT: &str =
    "{\"method\":\"update\",\"params\":{\"update\":{\"ops\":[{\"lines\":[{\"cursor\":[],\"styles\":[],\"text\":\"\\\"\\\\/\\t\\u0001\\u001f\u{7f}\u{e9}\u{2028}\u{1f600}\\r\\n\"}],\"n\":1,\"op\":\"ins\"}],\"pristine\":false},\"view_id\":\"\\n\"}}\n";

#[test]
fn an_update_is_its_note(rt: HostRuntime) {
    let alloc = rt.alloc();
    assert!(rt; is(written(alloc, "view-id-1", opening(alloc)), OPENING));
    assert!(rt;
        is(
            written(alloc, "view-id-20", each_operation(alloc)),
            EACH_OPERATION
        )
    );
    assert!(rt; is(written(alloc, "\n", odd_text(alloc)), ODD_TEXT));
    assert!(rt; is(written(alloc, "view-id-1", restylings(alloc)), RESTYLINGS));
}

/// The line of a scroll in a view.
fn scrolled(alloc: Global, view: &str, line: u64, col: u64) -> Result<Text, NoMemory> {
    let view = Text::from_str(alloc, view)?;
    write_scroll(alloc, &view, line, col)
}

/// The line of an alert.
fn alerted(alloc: Global, message: &str) -> Result<Text, NoMemory> {
    let message = Text::from_str(alloc, message)?;
    write_alert(alloc, &message)
}

const SCROLL: &str =
    "{\"method\":\"scroll_to\",\"params\":{\"col\":4,\"line\":0,\"view_id\":\"view-id-1\"}}\n";

const ALERT: &str =
    "{\"method\":\"alert\",\"params\":{\"msg\":\"method not found: \\\"\u{e9}\\n\"}}\n";

#[test]
fn the_other_notes_are_theirs(rt: HostRuntime) {
    let alloc = rt.alloc();
    assert!(rt; is(scrolled(alloc, "view-id-1", 0, 4), SCROLL));
    assert!(rt; is(alerted(alloc, "method not found: \"\u{e9}\n"), ALERT));
}

/// A style of which nothing is named.
pub(crate) const NO_STYLE: Style = Style {
    fg_color: None,
    bg_color: None,
    weight: None,
    italic: None,
    underline: None,
};

const WHOLE_STYLE: Style = Style {
    fg_color: Some(4294967295),
    bg_color: Some(0),
    weight: Some(1000),
    italic: Some(false),
    underline: Some(true),
};

/// Characters in this colour.
fn coloured(fg: u32) -> Style {
    let mut style = NO_STYLE;
    style.fg_color = Some(fg);
    style
}

/// Characters of this weight.
pub(crate) fn weighty(weight: u32) -> Style {
    let mut style = NO_STYLE;
    style.weight = Some(weight);
    style
}

pub(crate) const BOLD: &str = "{\"method\":\"def_style\",\"params\":{\"id\":2,\"weight\":700}}\n";

const WHOLE: &str =
    "{\"method\":\"def_style\",\"params\":{\"bg_color\":0,\"fg_color\":4294967295,\"id\":18446744073709551615,\"italic\":false,\"underline\":true,\"weight\":1000}}\n";

pub(crate) const UNNAMED: &str = "{\"method\":\"def_style\",\"params\":{\"id\":3}}\n";

const WHITE: &str = "{\"method\":\"def_style\",\"params\":{\"fg_color\":4294967295,\"id\":0}}\n";

#[test]
fn a_style_has_the_members_that_are_named(rt: HostRuntime) {
    let alloc = rt.alloc();
    assert!(rt; is(write_style(alloc, 2, weighty(700)), BOLD));
    assert!(rt; is(write_style(alloc, 18446744073709551615, WHOLE_STYLE), WHOLE));
    assert!(rt; is(write_style(alloc, 3, NO_STYLE), UNNAMED));
    assert!(rt; is(write_style(alloc, 0, coloured(4294967295)), WHITE));
}
