//! What a journal and bytes tell, in short.
use case_runs::callers;
use plain_text::{NoMemory, Text};
use std::alloc::Global;
use xi_top::{Entry, Report};

// How many entries this caller has.
pub(crate) fn entries_of(entries: &[Entry], caller: u32) -> usize {
    entries
        .iter()
        .filter(|entry| entry.caller == caller)
        .count()
}

// Whether the run has this status, and these callers of its entries, and no plugin lacked anything.
pub(crate) fn is_run<K, H, P>(
    alloc: Global,
    report: &Report<K, H, P>,
    status: u8,
    told: &str,
) -> Result<bool, NoMemory> {
    let callers = callers(alloc, &report.journal)?;
    Ok(report.status == status && report.all_served && callers.as_str() == told)
}

// How often the character stands in the text.
pub(crate) fn times(text: &str, letter: char) -> usize {
    text.chars()
        .filter(|character| *character == letter)
        .count()
}

// The text before the first quote.
fn to_quote(text: &str) -> &str {
    match text.split('"').next() {
        Some(text) => text,
        None => "",
    }
}

// The text of the one line on the screen: what the last update says.
pub(crate) fn last_text(alloc: Global, bytes: &str) -> Result<Text, NoMemory> {
    let mut last = Text::new(alloc);
    for part in bytes.split("\"text\":\"") {
        last = Text::from_str(alloc, to_quote(part))?;
    }
    Ok(last)
}
