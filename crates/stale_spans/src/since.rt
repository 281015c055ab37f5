ghost use Rattle.std.specs.Prelude.{◌≡◌, ◌<◌, length, None, IfOk, IfErr, OnOk};
ghost use Rattle.plain_edits.specs.History.{History};
ghost use Rattle.span_styles.specs.Layers.{AreOver, length_after};
ghost use Rattle.stale_spans.specs.Asked.{layers_with_spans};
ghost use Rattle.stale_spans.specs.Places.{StandIn, misplaced};
ghost use Rattle.stale_spans.specs.Read.{IsEdit, IsReadAt};
ghost use Rattle.stale_spans.specs.Refused.{IsRefused};

use crate::marks::brought;
use crate::places::placed;
use crate::{AskedSpans, Read, SpansFault};
use span_styles::Layers;
use std::alloc::Global;

/// The layers of the head text after spans against a revision, which are one plugin's, over its layer.
///
/// It costs the height of the rope for each end of a span, the spans as often as their number can be halved, the elements of the edit, and
/// the runs of that one layer, with one call for all parts of the range.
pub fn with_spans(
    alloc: Global,
    read: &Read,
    layers: &Layers,
    layer: u32,
    asked: &AskedSpans,
) -> Result<Layers, SpansFault>
    requires edit { IsEdit read.now }
    requires over { AreOver (length_after read.now.units) layers.now }
    requires known { layer < length layers.now }
    requires within { StandIn asked.now.len asked.now.spans }
    ensures layers { (history : History) → IsReadAt history asked.now.rev read.now
        → IfOk result (λ made. made ≡ layers_with_spans history asked.now layer layers.now) }
    ensures accepted { OnOk result (misplaced read.now.text asked.now.start asked.now.len asked.now.spans ≡ None) }
    ensures refused { IfErr result (IsRefused (misplaced read.now.text asked.now.start asked.now.len asked.now.spans)) }
    ensures over { IfOk result (AreOver (length_after read.now.units)) }
    ensures as_many { IfOk result (λ made. length made ≡ length layers.now) }
{
    let spanned = placed(alloc, &read.text, asked)?;
    let ranges = brought(alloc, &read.units, &spanned)?;
    Ok(layers.set_ranges(alloc, layer, &ranges)?)
}
