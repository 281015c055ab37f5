//! Layers of styles, and the table of styles.

ghost use Rattle.std.specs.Prelude.{◌≡◌, ◌≤◌, ◌<◌, ◌∷◌, [], length, IfOk};
ghost use Rattle.span_styles.specs.Layers.{AreOver, LieIn};

use delta_core::{apply, fits, to_units};
use plain_edits::{Delta, El, Els, Span, Spans, Style};
use plain_text::{NoMemory, Run, Text, TryClone};
use span_styles::{Layers, SpannedRange, StyleTable};
use std::alloc::Global;

fn span(start: u64, end: u64, style: u64) -> Span
    ensures { result ≡ record { start = start; end = end; style = style } }
{
    Span { start, end, style }
}

// The edit of a text of four bytes that keeps what is left of one byte and right of another, and puts a text between them.
fn edit(alloc: Global, left: u64, text: &str, right: u64) -> Result<Delta, NoMemory> {
    let text = Text::from_str(alloc, text)?;
    let mut els = Els::new(alloc);
    els.push(El::Copy { a: 0, b: left })?;
    els.push(El::Insert { text })?;
    els.push(El::Copy { a: right, b: 4 })?;
    Ok(Delta { els, base_len: 4 })
}

// Two layers over four characters, of which the first has style 2 over 1 to 3.
fn styled(alloc: Global) -> Result<Layers, NoMemory>
    ensures two { IfOk result (λ layers. length layers ≡ 2) }
    ensures over { IfOk result (λ layers. AreOver 4 layers) }
{
    let whole = Run { start: 0, end: 4 };
    Layers::new(alloc, 2, 4)?.set_range(alloc, 0, whole, &[span(1, 3, 2)])
}

// The layers after an edit of their text.
fn edited(alloc: Global, layers: &Layers, text: &Text, delta: &Delta) -> Result<Layers, NoMemory>
    requires { AreOver (length text.now) layers.now }
{
    if fits(text, delta).is_err() {
        return Err(NoMemory);
    }
    let units = to_units(alloc, text, delta)?;
    let _len = apply(alloc, text, &units)?.char_count();
    layers.map(alloc, &units)
}

// Whether the layers show these spans.
fn show(alloc: Global, layers: &Layers, expected: &[Span]) -> bool {
    match layers.spans(alloc, Run { start: 0, end: 9 }) {
        Ok(spans) => spans.as_slice() == expected,
        Err(_) => false,
    }
}

// Whether layers were made, and show these spans.
fn shows(alloc: Global, layers: Result<Layers, NoMemory>, expected: &[Span]) -> bool {
    match layers {
        Ok(layers) => show(alloc, &layers, expected),
        Err(_) => false,
    }
}

// The layers after the edit.
fn styled_after(alloc: Global, left: u64, text: &str, right: u64) -> Result<Layers, NoMemory> {
    let delta = edit(alloc, left, text, right)?;
    let base = Text::from_str(alloc, "abcd")?;
    if base.char_count() == 4 {
        edited(alloc, &styled(alloc)?, &base, &delta)
    } else {
        Err(NoMemory)
    }
}

// Whether the layers show these spans after the edit.
fn show_after(alloc: Global, left: u64, text: &str, right: u64, expected: &[Span]) -> bool {
    shows(alloc, styled_after(alloc, left, text, right), expected)
}

#[test]
fn styles_stay_with_their_characters(rt: HostRuntime) {
    let alloc = rt.alloc();
    assert!(rt; show_after(alloc, 0, "X", 0, &[span(2, 4, 2)]));
    let cut = [span(1, 2, 2), span(3, 4, 2)];
    assert!(rt; show_after(alloc, 2, "X", 2, &cut));
    assert!(rt; show_after(alloc, 1, "", 2, &[span(1, 2, 2)]));
    assert!(rt; show_after(alloc, 1, "é", 3, &[]));
    assert!(rt; show_after(alloc, 3, "XX", 3, &[span(1, 3, 2)]));
    assert!(rt; show_after(alloc, 2, "", 2, &[span(1, 3, 2)]));
}

// Whether the layers show these spans after others over a range of one of them.
fn show_with(alloc: Global, layer: u32, range: Run, spans: &[Span], expected: &[Span]) -> bool
    requires layer { layer < 2 }
    requires ordered { range.start ≤ range.end }
    requires inside { range.end ≤ 4 }
    requires within { LieIn range spans.now }
{
    match styled(alloc) {
        Ok(layers) => {
            shows(
                alloc,
                layers.set_range(alloc, layer, range, spans),
                expected,
            ) && shows(alloc, layers.copy(alloc), &[span(1, 3, 2)])
        }
        Err(_) => false,
    }
}

fn run(start: u64, end: u64) -> Run
    ensures { result ≡ record { start = start; end = end } }
{
    Run { start, end }
}

#[test]
fn spans_clear_their_range_and_the_later_wins(rt: HostRuntime) {
    let alloc = rt.alloc();
    assert!(rt; show_with(alloc, 0, run(2, 4), &[], &[span(1, 2, 2)]));
    let both = [span(0, 3, 2), span(1, 4, 3)];
    let won = [span(0, 1, 2), span(1, 4, 3)];
    assert!(rt; show_with(alloc, 0, run(0, 4), &both, &won));
    let one = [span(1, 4, 2)];
    assert!(rt; show_with(alloc, 0, run(3, 4), &[span(3, 4, 2)], &one));
    let twice = [span(1, 3, 2), span(1, 3, 2)];
    assert!(rt; show_with(alloc, 1, run(0, 4), &[span(1, 3, 2)], &twice));
    let other = [span(0, 1, 9), span(1, 3, 2)];
    assert!(rt; show_with(alloc, 1, run(0, 1), &[span(0, 1, 9)], &other));
}

fn list(alloc: Global, span: Span) -> Result<Spans, NoMemory>
    ensures { IfOk result (λ spans. spans ≡ span ∷ []) }
{
    let mut spans = Spans::new(alloc);
    spans.push(span)?;
    Ok(spans)
}

// The layers, where two ranges of one of them are styled at once.
fn styled_at_once(alloc: Global) -> Result<Layers, NoMemory> {
    let front = list(alloc, span(0, 1, 3))?;
    let back = list(alloc, span(3, 4, 2))?;
    let ranges = [
        SpannedRange {
            range: run(0, 2),
            spans: front,
        },
        SpannedRange {
            range: run(3, 4),
            spans: back,
        },
    ];
    styled(alloc)?.set_ranges(alloc, 0, &ranges)
}

#[test]
fn several_ranges_are_styled_at_once(rt: HostRuntime) {
    let alloc = rt.alloc();
    let both = [span(0, 1, 3), span(2, 4, 2)];
    assert!(rt; shows(alloc, styled_at_once(alloc), &both));
}

const fn style(weight: Option<u32>, italic: Option<bool>) -> Style {
    Style {
        fg_color: None,
        bg_color: None,
        weight,
        italic,
        underline: None,
    }
}

// The id of a style, which is defined where it is new.
fn id_of(table: &mut StyleTable, style: Style) -> Result<u64, NoMemory> {
    match table.find(&style) {
        Some(id) => Ok(id),
        None => table.define(style),
    }
}

// Whether the style has this id.
fn has_id(table: &mut StyleTable, style: Style, id: u64) -> bool {
    match id_of(table, style) {
        Ok(found) => found == id,
        Err(_) => false,
    }
}

// Whether a copy has the one style with id 3, and gives the other the next.
fn copy_goes_on(alloc: Global, table: &StyleTable, third: &Style, other: Style) -> bool {
    match table.copy(alloc) {
        Ok(mut copy) => has_id(&mut copy, other, 4) && copy.find(third) == Some(3),
        Err(_) => false,
    }
}

// Whether ids count from 2, each style has one, and a copy goes on alone.
fn ids_are_apart(alloc: Global, table: &mut StyleTable) -> bool {
    let bold = style(Some(700), None);
    let both = style(Some(700), Some(true));
    let plain = style(None, None);
    has_id(table, bold, 2)
        && has_id(table, both, 3)
        && has_id(table, bold, 2)
        && table.find(&both) == Some(3)
        && copy_goes_on(alloc, table, &both, plain)
        && table.find(&plain).is_none()
}

#[test]
fn a_style_has_one_id(rt: HostRuntime) {
    let alloc = rt.alloc();
    let mut table = StyleTable::new(alloc);
    assert!(rt; ids_are_apart(alloc, &mut table));
}
