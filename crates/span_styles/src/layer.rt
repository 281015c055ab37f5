ghost use Rattle.std.specs.Prelude.{◌≡◌, ◌++◌, ◌∷◌, ◌<◌, ◌^◌, [], length, replicate, fold, IfOk, OnOk, None};
ghost use Rattle.std.specs.Arc.{arc_value};
ghost use Rattle.plain_edits.specs.UnitDelta.{IsUnitDelta, unit_adds, unit_keeps};
ghost use Rattle.plain_edits.specs.Styles.{mapped_layer};
ghost use Rattle.span_runs.specs.Spans.{spans_in};
ghost use Rattle.span_styles.specs.Layers.{RiseWithin, length_after, spanned_layer, unstyled};
ghost use Rattle.span_styles.specs.Inner.{IsApartFrom, one_span};

use crate::apart::{bare_front, runs_apart};
use crate::run::StyleRuns;
use crate::spanned::{SpannedRange, spanned};
use delta_core::{Part, UnitWalk};
use plain_edits::{Span, Spans, UnitDelta};
use plain_text::{NoMemory, Run, TryClone};
use std::alloc::Global;
use std::marker::Model;
use std::sync::Arc;

/// One layer. Copies share its runs; there are none exactly where no character has a style.
#[derive(Drop)]
pub(crate) struct StyleLayer {
    len: u64,
    runs: Option<Arc<StyleRuns, Global>>,
}

impl Model for StyleLayer {
    ghost use Rattle.plain_edits.specs.Styles.{Layer};
    ghost use Rattle.span_styles.specs.Shared.{shared_layer, IsOver};

    ghost Value = { Layer };

    ghost view = { λ s. shared_layer s.len s.runs };

    ghost invariant = { λ s. IsOver s.len s.runs };
}

impl StyleLayer {
    /// A layer of so many characters, of which none has a style; it takes no memory.
    pub(crate) fn unstyled(len: u64) -> StyleLayer
        ensures { result ≡ replicate len None }
    {
        StyleLayer { len, runs: None }
    }

    /// The layer of these runs; it takes no memory where no character has a style.
    fn of_runs(alloc: Global, runs: StyleRuns) -> Result<StyleLayer, NoMemory>
        ensures { IfOk result (λ made. made ≡ runs) }
    {
        let len = runs.len();
        if !runs.has_styles() {
            return Ok(StyleLayer::unstyled(len));
        }
        let runs = Arc::new(alloc, runs)?;
        Ok(StyleLayer {
            len,
            runs: Some(runs),
        })
    }

    /// The layer after an edit that leaves `len` characters. Without a style it costs nothing, else its runs and the elements of the
    /// edit, with their texts.
    pub(crate) fn mapped(
        &self,
        alloc: Global,
        units: &UnitDelta,
        len: u64,
    ) -> Result<StyleLayer, NoMemory>
        requires well_formed { IsUnitDelta units.now }
        requires over { length self.now ≡ units.now.base }
        requires after { len ≡ length_after units.now }
        ensures { IfOk result (λ made. made ≡ mapped_layer (unit_keeps units.now) (unit_adds units.now) self.now) }
    {
        match &self.runs {
            None => Ok(StyleLayer::unstyled(len)),
            Some(runs) => StyleLayer::of_runs(alloc, mapped(alloc, runs, units)?),
        }
    }

    /// The layer after spans over ranges that rise.
    pub(crate) fn spanned(
        &self,
        alloc: Global,
        ranges: &[SpannedRange],
    ) -> Result<StyleLayer, NoMemory>
        requires { RiseWithin 0 (length self.now) ranges.now }
        ensures { IfOk result (λ made. made ≡ fold spanned_layer self.now ranges.now) }
    {
        match &self.runs {
            None => {
                let runs = StyleRuns::unstyled(alloc, self.len)?;
                StyleLayer::of_runs(alloc, spanned(alloc, &runs, ranges)?)
            }
            Some(runs) => StyleLayer::of_runs(alloc, spanned(alloc, runs, ranges)?),
        }
    }

    /// A gap left of which the layer styles no character in another way than the other, where they are not the same.
    pub(crate) fn apart_from(&self, other: &StyleLayer) -> Option<u64>
        ensures { IsApartFrom result self.now other.now }
    {
        match &self.runs {
            None => match &other.runs {
                None => bare_apart(self.len, other.len),
                Some(others) => Some(bare_front(others, self.len)),
            },
            Some(runs) => match &other.runs {
                None => Some(bare_front(runs, other.len)),
                Some(others) => runs_apart(runs, others),
            },
        }
    }

    /// Puts the spans of the layer in a range at the end of others. This costs a search, and the spans.
    pub(crate) fn push_spans(&self, spans: &mut Spans, range: Run) -> Result<(), NoMemory>
        ensures { OnOk result (spans.new ≡ spans.old ++ spans_in range self.now) }
    {
        match &self.runs {
            None => Ok(()),
            Some(runs) => push_spans(spans, runs, range),
        }
    }
}

impl TryClone for StyleLayer {
    fn copy(&self, _alloc: Global) -> Result<StyleLayer, NoMemory> {
        let runs = match &self.runs {
            None => None,
            Some(runs) => Some(Arc::try_clone(runs)?),
        };
        Ok(StyleLayer {
            len: self.len,
            runs,
        })
    }
}

// The same of layers without a style.
fn bare_apart(len: u64, other: u64) -> Option<u64>
    ensures { IsApartFrom result (unstyled len) (unstyled other) }
{
    if len == other { None } else { Some(0) }
}

// A layer after an edit: what is kept keeps its style, and what is added has none.
fn mapped(alloc: Global, layer: &StyleRuns, units: &UnitDelta) -> Result<StyleRuns, NoMemory>
    requires well_formed { IsUnitDelta units.now }
    requires over { length layer.now ≡ units.now.base }
    requires bound { length_after units.now < 2 ^ 64 }
    ensures { IfOk result (λ made. made ≡ mapped_layer (unit_keeps units.now) (unit_adds units.now) layer.now) }
{
    let mut made = StyleRuns::new(alloc);
    let mut rest = layer.walk_from(0);
    let mut walk = UnitWalk::new(units);
    while !walk.is_empty() {
        match walk.next() {
            Part::Keep(n) => rest.take_into(n, &mut made)?,
            Part::Drop(n) => rest.skip(n),
            Part::Add(text) => made.push(text.char_count(), None)?,
        }
    }
    Ok(made)
}

// Puts the spans of a layer in a range at the end of others.
fn push_spans(spans: &mut Spans, layer: &StyleRuns, range: Run) -> Result<(), NoMemory>
    ensures { OnOk result (spans.new ≡ spans.old ++ spans_in range layer.now) }
{
    let mut walk = layer.walk_from(range.start);
    let mut at = range.start;
    while at < range.end && !walk.is_empty() {
        let front = walk.front();
        let len = front.len.min(range.end - at);
        push_span(spans, at, at + len, front.style)?;
        walk.skip(len);
        at += len;
    }
    Ok(())
}

// Puts a span at the end, where it has a style.
fn push_span(spans: &mut Spans, start: u64, end: u64, style: Option<u64>) -> Result<(), NoMemory>
    ensures { OnOk result (spans.new ≡ spans.old ++ one_span start end style) }
{
    if let Some(style) = style {
        spans.push(Span { start, end, style })?;
    }
    Ok(())
}
