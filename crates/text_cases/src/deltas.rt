//! Deltas.

ghost use Rattle.std.specs.Prelude.{◌≡◌, length, IfOk};
ghost use Rattle.plain_edits.specs.Delta.{Fits};
ghost use Rattle.plain_edits.specs.UnitDelta.{IsUnitDelta};
ghost use Rattle.text_cases.specs.Edit.{edit_of_abc};

use delta_core::{apply, carry_ins, factor, fits, synthesize, to_delta, to_units, to_wire};
use plain_edits::{Added, Adds, Delta, El, Els, Misfit, UnitDelta};
use plain_text::{NoMemory, Run, Runs, Text};
use std::alloc::Global;
use subset_runs::{Subset, SubsetFault};

// An element of a row: a copy, or an insertion.
#[derive(Clone, Copy)]
enum Row {
    Copy(u64, u64),
    Insert(&'static str),
}

use Row::{Copy, Insert};

fn insertion(alloc: Global, text: &str) -> Result<El, NoMemory> {
    let text = Text::from_str(alloc, text)?;
    Ok(El::Insert { text })
}

fn element(alloc: Global, row: Row) -> Result<El, NoMemory> {
    match row {
        Copy(a, b) => Ok(El::Copy { a, b }),
        Insert(text) => insertion(alloc, text),
    }
}

fn delta(alloc: Global, base_len: u64, rows: &[Row]) -> Result<Delta, NoMemory> {
    let mut els = Els::new(alloc);
    for row in rows {
        els.push(element(alloc, *row)?)?;
    }
    Ok(Delta { els, base_len })
}

fn runs_of(alloc: Global, runs: &[(u64, u64)]) -> Result<Runs, NoMemory> {
    let mut made = Runs::new(alloc);
    for (start, end) in runs {
        made.push(Run {
            start: *start,
            end: *end,
        })?;
    }
    Ok(made)
}

fn addition(alloc: Global, gap: u64, text: &str) -> Result<Added, NoMemory> {
    let text = Text::from_str(alloc, text)?;
    Ok(Added { gap, text })
}

fn adds_of(alloc: Global, additions: &[(u64, &str)]) -> Result<Adds, NoMemory> {
    let mut made = Adds::new(alloc);
    for (gap, text) in additions {
        made.push(addition(alloc, *gap, text)?)?;
    }
    Ok(made)
}

fn units(
    alloc: Global,
    base: u64,
    runs: &[(u64, u64)],
    additions: &[(u64, &str)],
) -> Result<UnitDelta, NoMemory> {
    let kept = runs_of(alloc, runs)?;
    let added = adds_of(alloc, additions)?;
    Ok(UnitDelta { base, kept, added })
}

// A delta over a text: its elements, what they are in characters, on the wire again, gap by gap and as in notices, and the text after
// it.
struct Form {
    text: &'static str,
    els: &'static [Row],
    runs: &'static [(u64, u64)],
    additions: &'static [(u64, &'static str)],
    by_gaps: &'static [Row],
    wire: &'static [Row],
    after: &'static str,
}

// Whether these are the runs and the additions of the form.
fn are_units(alloc: Global, found: &UnitDelta, form: &Form) -> bool {
    match units(alloc, found.base, form.runs, form.additions) {
        Ok(wanted) => *found == wanted,
        Err(_) => false,
    }
}

// Whether the delta over the text has these elements.
fn has_elements(alloc: Global, text: &Text, found: &Delta, rows: &[Row]) -> bool {
    match delta(alloc, text.byte_len(), rows) {
        Ok(wanted) => *found == wanted,
        Err(_) => false,
    }
}

// Whether these are the elements as in notices.
fn is_noticed(alloc: Global, text: &Text, units: &UnitDelta, form: &Form) -> bool
    requires well_formed { IsUnitDelta units.now }
    requires base { units.now.base ≡ length text.now }
{
    match to_wire(alloc, text, units) {
        Ok(found) => has_elements(alloc, text, &found, form.wire),
        Err(_) => false,
    }
}

// Whether these are the elements gap by gap.
fn is_written(alloc: Global, text: &Text, units: &UnitDelta, form: &Form) -> bool
    requires well_formed { IsUnitDelta units.now }
    requires base { units.now.base ≡ length text.now }
{
    match to_delta(alloc, text, units) {
        Ok(found) => has_elements(alloc, text, &found, form.by_gaps),
        Err(_) => false,
    }
}

fn gives_the_text(alloc: Global, text: &Text, units: &UnitDelta, form: &Form) -> bool
    requires well_formed { IsUnitDelta units.now }
    requires base { units.now.base ≡ length text.now }
{
    match apply(alloc, text, units) {
        Ok(after) => after.as_str() == form.after,
        Err(_) => false,
    }
}

fn has_forms(alloc: Global, text: &Text, given: &Delta, form: &Form) -> bool
    requires { Fits text.now given.now }
{
    match to_units(alloc, text, given) {
        Ok(units) => {
            are_units(alloc, &units, form)
                && is_written(alloc, text, &units, form)
                && is_noticed(alloc, text, &units, form)
                && gives_the_text(alloc, text, &units, form)
        }
        Err(_) => false,
    }
}

// Whether the delta of the form fits, and has the form.
fn has_form(alloc: Global, text: &Text, form: &Form) -> bool {
    match delta(alloc, text.byte_len(), form.els) {
        Ok(given) => fits(text, &given).is_ok() && has_forms(alloc, text, &given, form),
        Err(_) => false,
    }
}

fn holds(alloc: Global, form: &Form) -> bool {
    match Text::from_str(alloc, form.text) {
        Ok(text) => has_form(alloc, &text, form),
        Err(_) => false,
    }
}

const REPLACED: Form = Form {
    text: "abc",
    els: &[Copy(0, 1), Insert("X"), Copy(2, 3)],
    runs: &[(0, 1), (2, 3)],
    additions: &[(1, "X")],
    by_gaps: &[Copy(0, 1), Insert("X"), Copy(2, 3)],
    wire: &[Copy(0, 1), Insert("X"), Copy(2, 3)],
    after: "aXc",
};

const NOTHING: Form = Form {
    text: "ab",
    els: &[],
    runs: &[],
    additions: &[],
    by_gaps: &[],
    wire: &[],
    after: "",
};

// An empty copy fixes a gap inside a deleted range; a notice has no trace of it.
const EMPTY_COPY: Form = Form {
    text: "aébc",
    els: &[Copy(0, 1), Copy(3, 3), Insert("X"), Copy(4, 5)],
    runs: &[(0, 1), (3, 4)],
    additions: &[(2, "X")],
    by_gaps: &[Copy(0, 1), Copy(3, 3), Insert("X"), Copy(4, 5)],
    wire: &[Copy(0, 1), Insert("X"), Copy(4, 5)],
    after: "aXc",
};

// Insertions before any copy, several at one gap, empty ones, and copies that touch.
const SEVERAL: Form = Form {
    text: "a𝄞b",
    els: &[
        Insert("X"),
        Insert(""),
        Insert("Y"),
        Copy(0, 1),
        Insert(""),
        Copy(1, 5),
        Insert("Z"),
    ],
    runs: &[(0, 2)],
    additions: &[(0, "XY"), (2, "Z")],
    by_gaps: &[Copy(0, 0), Insert("XY"), Copy(0, 5), Insert("Z")],
    wire: &[Insert("XY"), Copy(0, 5), Insert("Z")],
    after: "XYa𝄞Z",
};

// An insertion between two kept neighbours parts them on the wire, and insertions round a dropped character are one in a notice.
const PARTED: Form = Form {
    text: "abcd",
    els: &[
        Copy(0, 1),
        Insert("X"),
        Copy(1, 2),
        Insert("Y"),
        Copy(3, 3),
        Insert("Z"),
        Copy(3, 4),
    ],
    runs: &[(0, 2), (3, 4)],
    additions: &[(1, "X"), (2, "Y"), (3, "Z")],
    by_gaps: &[
        Copy(0, 1),
        Insert("X"),
        Copy(1, 2),
        Insert("Y"),
        Copy(3, 3),
        Insert("Z"),
        Copy(3, 4),
    ],
    wire: &[
        Copy(0, 1),
        Insert("X"),
        Copy(1, 2),
        Insert("YZ"),
        Copy(3, 4),
    ],
    after: "aXbYZd",
};

#[test]
fn a_delta_in_all_its_forms(rt: HostRuntime) {
    let alloc = rt.alloc();
    assert!(rt; holds(alloc, &REPLACED));
    assert!(rt; holds(alloc, &NOTHING));
    assert!(rt; holds(alloc, &EMPTY_COPY));
    assert!(rt; holds(alloc, &SEVERAL));
    assert!(rt; holds(alloc, &PARTED));
}

// Whether this is the first misfit of the delta.
fn misfits(text: &Text, given: &Delta, kind: u8, at: u64) -> bool {
    match fits(text, given) {
        Ok(()) => false,
        Err(found) => found == Misfit { kind, at },
    }
}

fn delta_misfits(
    alloc: Global,
    text: &Text,
    base_len: u64,
    els: &[Row],
    misfit: (u8, u64),
) -> bool {
    match delta(alloc, base_len, els) {
        Ok(given) => misfits(text, &given, misfit.0, misfit.1),
        Err(_) => false,
    }
}

// Whether this is the first misfit of the elements over the text, with this length of its base.
fn is_misfit(alloc: Global, text: &str, base_len: u64, els: &[Row], misfit: (u8, u64)) -> bool {
    match Text::from_str(alloc, text) {
        Ok(text) => delta_misfits(alloc, &text, base_len, els, misfit),
        Err(_) => false,
    }
}

#[test]
fn misfits_come_in_their_order(rt: HostRuntime) {
    let alloc = rt.alloc();
    assert!(rt; is_misfit(alloc, "aé", 4, &[Copy(0, 9)], (1, 4)));
    assert!(rt; is_misfit(alloc, "aé", 3, &[Copy(0, 1), Copy(0, 3)], (2, 0)));
    assert!(rt; is_misfit(alloc, "aé", 3, &[Copy(2, 1)], (2, 2)));
}

#[test]
fn offsets_past_the_end_are_misfits(rt: HostRuntime) {
    let alloc = rt.alloc();
    assert!(rt; is_misfit(alloc, "aé", 3, &[Copy(0, 4)], (3, 4)));
    assert!(rt; is_misfit(alloc, "aé", 3, &[Copy(2, 4)], (3, 4)));
    assert!(rt;
        is_misfit(
            alloc,
            "aé",
            3,
            &[Copy(0, 1), Insert("X"), Copy(2, 2), Copy(9, 0)],
            (4, 2)
        )
    );
}

#[test]
fn offsets_inside_a_character_are_misfits(rt: HostRuntime) {
    let alloc = rt.alloc();
    assert!(rt; is_misfit(alloc, "aé", 3, &[Copy(0, 2)], (4, 2)));
    assert!(rt; is_misfit(alloc, "€", 3, &[Copy(1, 2)], (4, 1)));
    assert!(rt; is_misfit(alloc, "€", 3, &[Copy(0, 2)], (4, 2)));
}

#[test]
fn offsets_inside_a_wide_character_are_misfits(rt: HostRuntime) {
    let alloc = rt.alloc();
    assert!(rt; is_misfit(alloc, "a𝄞", 5, &[Copy(1, 2)], (4, 2)));
    assert!(rt; is_misfit(alloc, "a𝄞", 5, &[Copy(3, 5)], (4, 3)));
    assert!(rt; is_misfit(alloc, "a𝄞", 5, &[Copy(4, 4)], (4, 4)));
}

// The edit of `abc` that has `X` in the place of `b`.
fn edit_of_abc(alloc: Global) -> Result<UnitDelta, NoMemory>
    ensures { IfOk result (λ units. units ≡ edit_of_abc) }
{
    let mut kept = Runs::new(alloc);
    kept.push(Run { start: 0, end: 1 })?;
    kept.push(Run { start: 2, end: 3 })?;
    let mut text = Text::new(alloc);
    text.push('X')?;
    let mut added = Adds::new(alloc);
    added.push(Added { gap: 1, text })?;
    Ok(UnitDelta {
        base: 3,
        kept,
        added,
    })
}

// Whether these are the positions, of so many, that the set has.
fn are(set: &Subset, len: u64, runs: &[(u64, u64)]) -> bool {
    set.len() == len && set.runs() == runs
}

// Whether that edit drops the one and inserts the other.
fn is_factored(alloc: Global, dropped: &[(u64, u64)], inserted: &[(u64, u64)]) -> bool {
    let Ok(edit) = edit_of_abc(alloc) else {
        return false;
    };
    match factor(alloc, &edit) {
        Ok((gone, come)) => are(&gone, 3, dropped) && are(&come, 4, inserted),
        Err(_) => false,
    }
}

#[test]
fn a_unit_delta_as_two_subsets(rt: HostRuntime) {
    assert!(rt; is_factored(rt.alloc(), &[(1, 2)], &[(1, 2)]));
}

// Whether the edit has a base of so many characters, these runs and these additions.
fn is_edit(
    alloc: Global,
    made: &UnitDelta,
    base: u64,
    runs: &[(u64, u64)],
    additions: &[(u64, &str)],
) -> bool {
    match units(alloc, base, runs, additions) {
        Ok(wanted) => *made == wanted,
        Err(_) => false,
    }
}

// What leads from the one set of positions being dead to the other.
fn between(alloc: Global, union: &Text, dead: [(u64, u64); 2]) -> Option<UnitDelta> {
    let [before, after] = dead;
    let Ok(before) = Subset::of_ranges(alloc, union.char_count(), &[before]) else {
        return None;
    };
    let Ok(after) = Subset::of_ranges(alloc, union.char_count(), &[after]) else {
        return None;
    };
    synthesize(alloc, union, &before, &after).ok()
}

// Whether an edit of so many characters with these runs and additions leads there.
fn leads(
    alloc: Global,
    union: &str,
    dead: [(u64, u64); 2],
    base: u64,
    runs: &[(u64, u64)],
    additions: &[(u64, &str)],
) -> bool {
    let Ok(union) = Text::from_str(alloc, union) else {
        return false;
    };
    match between(alloc, &union, dead) {
        Some(made) => is_edit(alloc, &made, base, runs, additions),
        None => false,
    }
}

#[test]
fn two_subsets_as_a_unit_delta(rt: HostRuntime) {
    let alloc = rt.alloc();
    assert!(rt; leads(alloc, "XYZ", [(1, 2), (2, 3)], 2, &[(0, 1)], &[(1, "Y")]));
    assert!(rt; leads(alloc, "XYéb", [(0, 2), (3, 4)], 2, &[(0, 1)], &[(0, "XY")]));
    assert!(rt; leads(alloc, "abc", [(1, 2), (1, 2)], 2, &[(0, 2)], &[]));
}

// Insertions of a base of so many characters: all of a subset from one position up to another.
type Ins = (u64, u64, u64);

fn insertions(alloc: Global, ins: Ins) -> Result<Subset, SubsetFault> {
    Subset::of_ranges(alloc, ins.0, &[(ins.1, ins.2)])
}

// Whether the insertions are carried among the later ones to these positions.
fn are_carried(
    alloc: Global,
    ins: &Subset,
    later: &Subset,
    after: bool,
    runs: &[(u64, u64)],
) -> bool {
    let (long, more) = (ins.len(), later.count());
    let (other, some) = (later.len(), ins.count());
    if long > 9 || more > 9 || other > 9 || some > 9 || long + more != other + some {
        return false;
    }
    match carry_ins(alloc, ins, later, after) {
        Ok(made) => made.runs() == runs,
        Err(_) => false,
    }
}

fn go(alloc: Global, ins: Ins, later: Ins, after: bool, runs: &[(u64, u64)]) -> bool {
    let Ok(ins) = insertions(alloc, ins) else {
        return false;
    };
    match insertions(alloc, later) {
        Ok(later) => are_carried(alloc, &ins, &later, after, runs),
        Err(_) => false,
    }
}

#[test]
fn ties_go_by_after(rt: HostRuntime) {
    let alloc = rt.alloc();
    assert!(rt; go(alloc, (2, 0, 1), (2, 0, 1), true, &[(1, 2)]));
    assert!(rt; go(alloc, (2, 0, 1), (2, 0, 1), false, &[(0, 1)]));
    assert!(rt; go(alloc, (4, 1, 3), (3, 0, 1), true, &[(2, 4)]));
}

#[test]
fn insertions_are_carried_together(rt: HostRuntime) {
    let alloc = rt.alloc();
    assert!(rt; go(alloc, (4, 1, 3), (3, 1, 2), false, &[(1, 3)]));
    assert!(rt; go(alloc, (4, 1, 3), (3, 1, 2), true, &[(2, 4)]));
    assert!(rt; go(alloc, (2, 2, 2), (3, 2, 3), true, &[]));
}
