ghost use Rattle.std.specs.Prelude.{◌≡◌, ◌↔◌, ◌∷◌, ◌<◌, ◌≤◌, ◌^◌, [], length, IsTrue, IfOk};
ghost use Rattle.plain_edits.specs.UnitDelta.{IsUnitDelta};
ghost use Rattle.span_runs.specs.Spans.{spans_in, spans_of};
ghost use Rattle.span_styles.specs.Layers.{AreApartFrom, AreOver, LieIn, RiseWithin, layer_at, length_after, mapped_layers, new_layers, spanned_layers};
ghost use Rattle.std.specs.List.{flat_map};
ghost use Rattle.span_styles.specs.Inner.{IsWhole, LeavesAll};

use crate::apart::layers_apart;
use crate::layer::StyleLayer;
use crate::spanned::SpannedRange;
use delta_core::{Part, UnitWalk};
use plain_edits::{Span, Spans, UnitDelta};
use plain_text::{NoMemory, Run, TryClone};
use span_runs::in_order;
use std::alloc::Global;
use std::marker::Model;

/// Layers of styles over one text, for one caller each. To a contract it is the list of them, each one optional id for each character.
/// A layer that a call does not change is shared by the two values, and a layer without a style takes no memory of its own.
#[derive(Drop)]
pub struct Layers {
    layers: Vec<StyleLayer>,
}

impl Model for Layers {
    ghost use Rattle.std.specs.Prelude.{List};
    ghost use Rattle.plain_edits.specs.Styles.{Layer};

    ghost Value = { List Layer };

    ghost view = { λ s. s.layers.items };
}

impl Layers {
    /// So many layers over a text of this length, without a style.
    pub fn new(alloc: Global, n: u32, len: u64) -> Result<Layers, NoMemory>
        ensures { IfOk result (λ made. made ≡ new_layers n len) }
    {
        let mut layers = Vec::new(alloc);
        for _layer in 0..n {
            layers.push(StyleLayer::unstyled(len))?;
        }
        Ok(Layers { layers })
    }

    /// The layers where the range of one is cleared, and styled by the spans. This costs the runs of that layer, and the spans as often
    /// as their number can be halved.
    pub fn set_range(
        &self,
        alloc: Global,
        layer: u32,
        range: Run,
        spans: &[Span],
    ) -> Result<Layers, NoMemory>
        requires known { layer < length self.now }
        requires ordered { range.start ≤ range.end }
        requires inside { range.end ≤ length (layer_at self.now layer) }
        requires within { LieIn range spans.now }
        ensures { IfOk result (λ made. made ≡ spanned_layers self.now layer (record { range = range; spans = spans.now } ∷ [])) }
    {
        let spans = Spans::from_vec(spans.iter().copied().collect(alloc)?);
        let spanned = [SpannedRange { range, spans }];
        self.set_ranges(alloc, layer, &spanned)
    }

    /// The same for several ranges of one layer, which rise. The runs of the layer are walked once.
    pub fn set_ranges(
        &self,
        alloc: Global,
        layer: u32,
        ranges: &[SpannedRange],
    ) -> Result<Layers, NoMemory>
        requires known { layer < length self.now }
        requires rising { RiseWithin 0 (length (layer_at self.now layer)) ranges.now }
        ensures { IfOk result (λ made. made ≡ spanned_layers self.now layer ranges.now) }
    {
        let index = layer as usize;
        let spanned = self.layers[index].spanned(alloc, ranges)?;
        let mut layers = copied(alloc, &self.layers)?;
        layers[index] = spanned;
        Ok(Layers { layers })
    }

    /// The layers after an edit. This costs the elements of the edit with their texts, and for each layer that has a style these again
    /// and its runs. An edit that leaves all characters, and adds none, changes no layer: all are shared.
    pub fn map(&self, alloc: Global, units: &UnitDelta) -> Result<Layers, NoMemory>
        requires well_formed { IsUnitDelta units.now }
        requires over { AreOver units.now.base self.now }
        requires bound { length_after units.now < 2 ^ 64 }
        ensures { IfOk result (λ made. made ≡ mapped_layers units.now self.now) }
    {
        if leaves_all(units) {
            return self.copy(alloc);
        }
        let len = len_after(units);
        Ok(Layers {
            layers: mapped(alloc, &self.layers, units, len)?,
        })
    }

    /// A gap left of which the layers style no character in another way than others, where they are not the same; of two layers that both have
    /// styles it is the first such character. This costs the runs up to there.
    pub fn apart_from(&self, other: &Layers) -> Option<u64>
        ensures { AreApartFrom result self.now other.now }
    {
        layers_apart(&self.layers, &other.layers)
    }

    /// The spans that the layers show in a range, in the coordinates of the text: their runs of one style, cut at the range's ends. This
    /// costs a search for each layer, and a sort of the spans.
    pub fn spans(&self, alloc: Global, range: Run) -> Result<Spans, NoMemory>
        ensures { IfOk result (λ spans. spans ≡ spans_of self.now range) }
    {
        in_order(shown(alloc, &self.layers, range)?)
    }
}

impl TryClone for Layers {
    /// A copy that shares all layers.
    fn copy(&self, alloc: Global) -> Result<Layers, NoMemory> {
        Ok(Layers {
            layers: copied(alloc, &self.layers)?,
        })
    }
}

fn copied(alloc: Global, layers: &[StyleLayer]) -> Result<Vec<StyleLayer>, NoMemory>
    ensures { IfOk result (λ made. made.items ≡ layers.now) }
{
    let mut made = Vec::new(alloc);
    for layer in layers {
        made.push(layer.copy(alloc)?)?;
    }
    Ok(made)
}

// Each layer after an edit that leaves `len` characters.
fn mapped(
    alloc: Global,
    layers: &[StyleLayer],
    units: &UnitDelta,
    len: u64,
) -> Result<Vec<StyleLayer>, NoMemory>
    requires well_formed { IsUnitDelta units.now }
    requires over { AreOver units.now.base layers.now }
    requires after { len ≡ length_after units.now }
    ensures { IfOk result (λ made. made.items ≡ mapped_layers units.now layers.now) }
{
    let mut made = Vec::new(alloc);
    for layer in layers {
        made.push(layer.mapped(alloc, units, len)?)?;
    }
    Ok(made)
}

// The spans of each layer in a range, one layer after the other.
fn shown(alloc: Global, layers: &[StyleLayer], range: Run) -> Result<Spans, NoMemory>
    ensures { IfOk result (λ spans. spans ≡ flat_map (spans_in range) layers.now) }
{
    let mut spans = Spans::new(alloc);
    for layer in layers {
        layer.push_spans(&mut spans, range)?;
    }
    Ok(spans)
}

// Whether an edit keeps all characters, in one run, and adds none.
fn leaves_all(units: &UnitDelta) -> bool
    ensures { IsTrue result ↔ LeavesAll units.now }
{
    units.added.is_empty() && is_whole(units.base, units.kept.as_slice())
}

// Whether the runs are one with all of so many characters, or none of none.
fn is_whole(base: u64, kept: &[Run]) -> bool
    ensures { IsTrue result ↔ IsWhole base kept.now }
{
    match kept {
        [] => base == 0,
        [run] => run.start == 0 && run.end == base,
        _ => false,
    }
}

// How many characters there are after an edit.
fn len_after(units: &UnitDelta) -> u64
    requires well_formed { IsUnitDelta units.now }
    requires bound { length_after units.now < 2 ^ 64 }
    ensures { result ≡ length_after units.now }
{
    let mut len = 0;
    let mut walk = UnitWalk::new(units);
    while !walk.is_empty() {
        match walk.next() {
            Part::Keep(n) => len += n,
            Part::Drop(_) => {}
            Part::Add(text) => len += text.char_count(),
        }
    }
    len
}
