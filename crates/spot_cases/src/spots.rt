//! Where patterns and characters stand in texts, and the texts with these places replaced.

ghost use Rattle.std.specs.Prelude.{◌≡◌, length};
ghost use Rattle.plain_edits.specs.UnitDelta.{IsUnitDelta};
ghost use Rattle.regex_find.specs.Spots.{AreSpots};

use delta_core::apply;
use plain_edits::{Added, Adds, UnitDelta};
use plain_text::{NoMemory, Run, Runs, Text};
use regex::Regex;
use regex_find::{LiteralSpot, RegexSpot, Spot, replace_units};
use std::alloc::Global;

// What is looked for.
enum Wanted {
    Pattern(&'static str),
    Chars(&'static str),
}

use Wanted::{Chars, Pattern};

// A text, what is looked for in it, where that stands, what comes in its place, what is kept, and the text after it.
struct Row {
    text: &'static str,
    wanted: Wanted,
    runs: &'static [(u64, u64)],
    with: &'static str,
    kept: &'static [(u64, u64)],
    after: &'static str,
}

fn runs_of(alloc: Global, runs: &[(u64, u64)]) -> Result<Runs, NoMemory> {
    let mut made = Runs::new(alloc);
    for (start, end) in runs {
        made.push(Run {
            start: *start,
            end: *end,
        })?;
    }
    Ok(made)
}

// The row's text where each of its runs starts; nothing where the text is empty.
fn added_of(alloc: Global, row: &Row) -> Result<Adds, NoMemory> {
    let mut made = Adds::new(alloc);
    if row.with.is_empty() {
        return Ok(made);
    }
    for (start, _) in row.runs {
        made.push(Added {
            gap: *start,
            text: Text::from_str(alloc, row.with)?,
        })?;
    }
    Ok(made)
}

fn edit_of(alloc: Global, row: &Row, base: u64) -> Result<UnitDelta, NoMemory> {
    Ok(UnitDelta {
        base,
        kept: runs_of(alloc, row.kept)?,
        added: added_of(alloc, row)?,
    })
}

// Whether this is the row's edit, and gives the row's text.
fn is_edit(alloc: Global, text: &Text, units: &UnitDelta, row: &Row) -> Result<bool, NoMemory>
    requires well_formed { IsUnitDelta units.now }
    requires base { units.now.base ≡ length text.now }
{
    let wanted = edit_of(alloc, row, units.base)?;
    let after = apply(alloc, text, units)?;
    Ok(*units == wanted && after.as_str() == row.after)
}

// Whether replacing these runs is the row's edit.
fn is_replaced(alloc: Global, text: &Text, runs: &Runs, row: &Row) -> Result<bool, NoMemory>
    requires { AreSpots (length text.now) 0 runs.now }
{
    let with = Text::from_str(alloc, row.with)?;
    let units = replace_units(alloc, text, runs, &with)?;
    is_edit(alloc, text, &units, row)
}

fn are_runs(alloc: Global, runs: &Runs, row: &Row) -> bool {
    match runs_of(alloc, row.runs) {
        Ok(wanted) => *runs == wanted,
        Err(_) => false,
    }
}

// Whether these are the spots of the row's text, and replacing them is its edit.
fn is_found<S: Spot>(alloc: Global, spot: &mut S, row: &Row) -> Result<bool, NoMemory> {
    let text = Text::from_str(alloc, row.text)?;
    let runs = spot.spots(&text)?;
    if !are_runs(alloc, &runs, row) {
        return Ok(false);
    }
    is_replaced(alloc, &text, &runs, row)
}

fn is_so(alloc: Global, row: &Row) -> Result<bool, NoMemory> {
    match row.wanted {
        Pattern(source) => match Regex::new(alloc, source) {
            Ok(regex) => is_found(alloc, &mut RegexSpot::of(alloc, regex), row),
            Err(_) => Ok(false),
        },
        Chars(chars) => {
            let chars = Text::from_str(alloc, chars)?;
            is_found(alloc, &mut LiteralSpot::of(alloc, chars), row)
        }
    }
}

fn are_so(alloc: Global, rows: &[Row]) -> bool {
    for row in rows {
        if !matches!(is_so(alloc, row), Ok(true)) {
            return false;
        }
    }
    true
}

const PATTERNS: &[Row] = &[
    Row {
        text: "a1b22",
        wanted: Pattern("[0-9]+"),
        runs: &[(1, 2), (3, 5)],
        with: "#",
        kept: &[(0, 1), (2, 3)],
        after: "a#b#",
    },
    Row {
        text: "aééb漢é",
        wanted: Pattern("é+"),
        runs: &[(1, 3), (5, 6)],
        with: "𝄞",
        kept: &[(0, 1), (3, 5)],
        after: "a𝄞b漢𝄞",
    },
    Row {
        text: "a\n漢",
        wanted: Pattern("."),
        runs: &[(0, 1), (2, 3)],
        with: "..",
        kept: &[(1, 2)],
        after: "..\n..",
    },
    Row {
        text: "ab",
        wanted: Pattern("(a)(b)"),
        runs: &[(0, 2)],
        with: "$1",
        kept: &[],
        after: "$1",
    },
];

const EMPTY_MATCHES: &[Row] = &[
    Row {
        text: "axxb",
        wanted: Pattern("x*"),
        runs: &[(1, 3)],
        with: "y",
        kept: &[(0, 1), (3, 4)],
        after: "ayb",
    },
    Row {
        text: "ab\nc",
        wanted: Pattern("^"),
        runs: &[],
        with: "y",
        kept: &[(0, 4)],
        after: "ab\nc",
    },
    Row {
        text: "ab\nc",
        wanted: Pattern("$"),
        runs: &[],
        with: "y",
        kept: &[(0, 4)],
        after: "ab\nc",
    },
    Row {
        text: "",
        wanted: Pattern("x*"),
        runs: &[],
        with: "y",
        kept: &[],
        after: "",
    },
];

const CHARACTERS: &[Row] = &[
    Row {
        text: "aaa",
        wanted: Chars("aa"),
        runs: &[(0, 2)],
        with: "",
        kept: &[(2, 3)],
        after: "a",
    },
    Row {
        text: "aaaa",
        wanted: Chars("aa"),
        runs: &[(0, 2), (2, 4)],
        with: "aab",
        kept: &[],
        after: "aabaab",
    },
    Row {
        text: "é漢é漢é",
        wanted: Chars("漢"),
        runs: &[(1, 2), (3, 4)],
        with: "𝄞漢",
        kept: &[(0, 1), (2, 3), (4, 5)],
        after: "é𝄞漢é𝄞漢é",
    },
    Row {
        text: "éa",
        wanted: Chars("A"),
        runs: &[],
        with: "b",
        kept: &[(0, 2)],
        after: "éa",
    },
    Row {
        text: "ab",
        wanted: Chars(""),
        runs: &[],
        with: "c",
        kept: &[(0, 2)],
        after: "ab",
    },
];

#[test]
fn matches_are_replaced(rt: HostRuntime) {
    assert!(rt; are_so(rt.alloc(), PATTERNS));
}

#[test]
fn empty_matches_are_no_spots(rt: HostRuntime) {
    assert!(rt; are_so(rt.alloc(), EMPTY_MATCHES));
}

#[test]
fn characters_are_replaced_as_they_stand(rt: HostRuntime) {
    assert!(rt; are_so(rt.alloc(), CHARACTERS));
}
