//! What entries tell the front end, as it is printed.

use crate::made::is;
use crate::notes::{BOLD, NO_STYLE, OPENING, UNNAMED, opening, weighty};
use entry_lines::{FrontNews, FrontReply, piece_of, view_id_of};
use plain_text::{List, NoMemory, Text};
use std::alloc::Global;
use view_update::{NumberedStyle, Scroll, ViewUpdate};
use xi_plain::{Fault, Id};

/// What answers an entry, and nothing else.
fn reply_alone(alloc: Global, reply: FrontReply) -> FrontNews {
    FrontNews {
        reply,
        styles: List::new(alloc),
        updates: List::new(alloc),
        scroll: None,
    }
}

/// The piece of an entry under this numeric id.
fn answered(alloc: Global, id: u64, reply: FrontReply) -> Result<Text, NoMemory> {
    piece_of(alloc, &Id::Num(i128::from(id)), &reply_alone(alloc, reply))
}

/// The piece of an entry without an id.
fn told(alloc: Global, reply: FrontReply) -> Result<Text, NoMemory> {
    piece_of(alloc, &Id::NoId, &reply_alone(alloc, reply))
}

fn no_method(alloc: Global) -> Result<FrontReply, NoMemory> {
    let name = Text::from_str(alloc, "no_such")?;
    Ok(FrontReply::Refused(Fault::NoMethod(name)))
}

fn no_view(alloc: Global) -> Result<FrontReply, NoMemory> {
    let member = Text::from_str(alloc, "view_id")?;
    Ok(FrontReply::Refused(Fault::BadParams(member)))
}

const NO_METHOD: &str =
    "{\"error\":{\"code\":-32601,\"message\":\"method not found: no_such\"},\"id\":1}\n";

const NO_METHOD_ALERT: &str =
    "{\"method\":\"alert\",\"params\":{\"msg\":\"method not found: no_such\"}}\n";

const NO_VIEW: &str =
    "{\"error\":{\"code\":-32602,\"message\":\"invalid params: view_id\"},\"id\":2}\n";

/// The piece of a refused method under this id, or without one.
fn refused_method(alloc: Global, id: Option<u64>) -> Result<Text, NoMemory> {
    let reply = no_method(alloc)?;
    match id {
        Some(id) => answered(alloc, id, reply),
        None => told(alloc, reply),
    }
}

fn refused_view(alloc: Global) -> Result<Text, NoMemory> {
    let reply = no_view(alloc)?;
    answered(alloc, 2, reply)
}

#[test]
fn refused_methods(rt: HostRuntime) {
    let alloc = rt.alloc();
    assert!(rt; is(refused_method(alloc, Some(1)), NO_METHOD));
    assert!(rt; is(refused_method(alloc, None), NO_METHOD_ALERT));
    assert!(rt; is(refused_view(alloc), NO_VIEW));
}

const PARSE: &str = "{\"error\":{\"code\":-32700,\"message\":\"parse error\"},\"id\":null}\n";

const INVALID: &str = "{\"error\":{\"code\":-32600,\"message\":\"invalid request\"},\"id\":null}\n";

#[test]
fn unreadable_lines(rt: HostRuntime) {
    let alloc = rt.alloc();
    assert!(rt; is(told(alloc, FrontReply::Refused(Fault::Parse)), PARSE));
    assert!(rt; is(told(alloc, FrontReply::Refused(Fault::Invalid)), INVALID));
    assert!(rt;
        is(
            answered(alloc, 7, FrontReply::Refused(Fault::Invalid)),
            INVALID
        )
    );
}

const SHELF: &str = "{\"error\":{\"code\":1,\"message\":\"shelf\"},\"id\":1}\n";

const NOT_TEXT: &str = "{\"error\":{\"code\":2,\"message\":\"not text\"},\"id\":0}\n";

const NOT_TEXT_ALERT: &str = "{\"method\":\"alert\",\"params\":{\"msg\":\"not text\"}}\n";

const SPENT: &str = "{\"error\":{\"code\":3,\"message\":\"spent\"},\"id\":18446744073709551615}\n";

#[test]
fn refusals_of_the_session(rt: HostRuntime) {
    let alloc = rt.alloc();
    assert!(rt; is(answered(alloc, 1, FrontReply::ShelfFailed), SHELF));
    assert!(rt; is(answered(alloc, 0, FrontReply::NotText), NOT_TEXT));
    assert!(rt; is(told(alloc, FrontReply::NotText), NOT_TEXT_ALERT));
    assert!(rt;
        is(
            answered(alloc, 18446744073709551615, FrontReply::Spent),
            SPENT
        )
    );
}

/// The piece of an entry that copies this text.
fn copied(alloc: Global, text: &str) -> Result<Text, NoMemory> {
    let text = Text::from_str(alloc, text)?;
    answered(alloc, 4, FrontReply::Copied(text))
}

/// The piece of a plugin's entry that has a message for the user.
fn alerted(alloc: Global, message: &str) -> Result<Text, NoMemory> {
    let message = Text::from_str(alloc, message)?;
    told(alloc, FrontReply::Alert(message))
}

const COPIED: &str = "{\"id\":4,\"result\":\"a\\n\\\"\u{1f600}\"}\n";

const ALERTED: &str =
    "{\"method\":\"alert\",\"params\":{\"msg\":\"{\\\"method\\\":\\\"update\\\"}\\n\"}}\n";

#[test]
fn an_entry_is_answered(rt: HostRuntime) {
    let alloc = rt.alloc();
    assert!(rt;
        is(
            answered(alloc, 3, FrontReply::Accepted),
            "{\"id\":3,\"result\":null}\n"
        )
    );
    assert!(rt; is(told(alloc, FrontReply::Accepted), ""));
    assert!(rt; is(told(alloc, FrontReply::Silent), ""));
    assert!(rt; is(copied(alloc, "a\n\"\u{1f600}"), COPIED));
    assert!(rt; is(alerted(alloc, "{\"method\":\"update\"}\n"), ALERTED));
}

/// The opening update of the view with this number.
fn opened(alloc: Global, number: u64) -> Result<ViewUpdate, NoMemory> {
    let view = view_id_of(alloc, number)?;
    Ok(ViewUpdate {
        view,
        update: opening(alloc)?,
    })
}

fn first_view(alloc: Global) -> Result<Text, NoMemory> {
    let mut news = reply_alone(alloc, FrontReply::Opened(view_id_of(alloc, 1)?));
    news.updates.push(opened(alloc, 1)?)?;
    piece_of(alloc, &Id::Num(0), &news)
}

const FIRST_VIEW: &str = "{\"id\":0,\"result\":\"view-id-1\"}\n";

/// A piece with everything in it: an alert, two styles, the updates of two views, and a place to scroll to.
fn full_piece(alloc: Global) -> Result<Text, NoMemory> {
    let mut news = reply_alone(alloc, FrontReply::NotText);
    news.styles.push(NumberedStyle {
        id: 2,
        style: weighty(700),
    })?;
    news.styles.push(NumberedStyle {
        id: 3,
        style: NO_STYLE,
    })?;
    news.updates.push(opened(alloc, 1)?)?;
    news.updates.push(opened(alloc, 20)?)?;
    news.scroll = Some(Scroll {
        view: view_id_of(alloc, 20)?,
        line: 0,
        col: 4,
    });
    piece_of(alloc, &Id::NoId, &news)
}

const LATER_OPENING: &str =
    "{\"method\":\"update\",\"params\":{\"update\":{\"ops\":[{\"lines\":[{\"cursor\":[0],\"ln\":1,\"styles\":[],\"text\":\"\"}],\"n\":1,\"op\":\"ins\"}],\"pristine\":true},\"view_id\":\"view-id-20\"}}\n";

const SCROLL: &str =
    "{\"method\":\"scroll_to\",\"params\":{\"col\":4,\"line\":0,\"view_id\":\"view-id-20\"}}\n";

/// Whether the piece was made, and is these lines.
fn is_lines(alloc: Global, made: Result<Text, NoMemory>, lines: &[&str]) -> bool {
    let mut all = Text::new(alloc);
    for line in lines {
        if all.push_str(line).is_err() {
            return false;
        }
    }
    is(made, all.as_str())
}

#[test]
fn a_piece_has_its_lines_in_order(rt: HostRuntime) {
    let alloc = rt.alloc();
    assert!(rt; is_lines(alloc, first_view(alloc), &[FIRST_VIEW, OPENING]));
    assert!(rt;
        is_lines(
            alloc,
            full_piece(alloc),
            &[
                NOT_TEXT_ALERT,
                BOLD,
                UNNAMED,
                OPENING,
                LATER_OPENING,
                SCROLL
            ]
        )
    );
}

#[test]
fn ids_are_numbers_without_leading_zeros(rt: HostRuntime) {
    let alloc = rt.alloc();
    assert!(rt; is(view_id_of(alloc, 1), "view-id-1"));
    assert!(rt; is(view_id_of(alloc, 9), "view-id-9"));
    assert!(rt; is(view_id_of(alloc, 10), "view-id-10"));
    assert!(rt;
        is(
            view_id_of(alloc, 9223372036854775808),
            "view-id-9223372036854775808"
        )
    );
}
