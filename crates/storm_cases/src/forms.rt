//! Which words ask for a run.

use plain_text::{List, NoMemory, Text, Texts};
use std::alloc::Global;
use storm_lines::{Form, form_of};

/// The words of a line, which spaces part. A space at its end stands before an empty word.
pub(crate) fn words_of(alloc: Global, line: &str) -> Result<Texts, NoMemory> {
    let mut words = List::new(alloc);
    if line.is_empty() {
        return Ok(words);
    }
    for word in line.split(' ') {
        words.push(Text::from_str(alloc, word)?)?;
    }
    Ok(words)
}

fn asks(alloc: Global, line: &str) -> Result<Option<Form>, NoMemory> {
    let words = words_of(alloc, line)?;
    Ok(form_of(words.as_slice()))
}

/// Whether the words ask for this storm.
fn is_storm(alloc: Global, line: &str, lines: u32, number: u64) -> bool {
    match asks(alloc, line) {
        Ok(Some(Form::Storm { count, seed })) => count == lines && seed == number,
        _ => false,
    }
}

fn is_no_form(alloc: Global, line: &str) -> bool {
    match asks(alloc, line) {
        Ok(None) => true,
        _ => false,
    }
}

#[test]
fn no_word_asks_for_a_run_on_threads(rt: HostRuntime) {
    match asks(rt.alloc(), "") {
        Ok(Some(Form::Threads)) => {}
        _ => assert!(rt; false),
    }
}

#[test]
fn one_word_asks_for_a_run_alone(rt: HostRuntime) {
    match asks(rt.alloc(), "alone") {
        Ok(Some(Form::Alone)) => {}
        _ => assert!(rt; false),
    }
}

#[test]
fn leading_zeros_count_nothing(rt: HostRuntime) {
    let alloc = rt.alloc();
    assert!(rt; is_storm(alloc, "storm 0 7", 0, 7));
    assert!(rt; is_storm(alloc, "storm 007 07", 7, 7));
    assert!(rt;
        is_storm(
            alloc,
            "storm 1000000 18446744073709551615",
            1000000,
            18446744073709551615
        )
    );
    assert!(rt; is_storm(alloc, "storm 000000000000000000000000000 000", 0, 0));
}

#[test]
fn other_words_are_no_form(rt: HostRuntime) {
    let alloc = rt.alloc();
    for line in [
        " ",
        "storm",
        "storm 1",
        "storm 1 2 3",
        "storm 1 2 ",
        "storm 1000001 1",
        "storm 1 18446744073709551616",
        "storm -1 1",
        "storm 1 -1",
        "storm 1.0 1",
        "storm +1 1",
        "storm x 1",
        "storm \u{661} 1",
        "storm 1 \u{661}",
        "storm  1",
        "storm 1 ",
        "Storm 1 1",
        "alone 1 1",
        "alone alone",
        "alone ",
        "ALONE",
    ] {
        assert!(rt; is_no_form(alloc, line));
    }
}
