ghost use Rattle.std.specs.Prelude.{◌≡◌, length, IfOk};
ghost use Rattle.plain_edits.specs.Styles.{or_style};
ghost use Rattle.span_styles.specs.Inner.{overlaid_layer};

use crate::run::StyleRuns;
use plain_text::NoMemory;
use std::alloc::Global;

fn style_over(above: Option<u64>, below: Option<u64>) -> Option<u64>
    ensures { result ≡ or_style above below }
{
    match above {
        Some(style) => Some(style),
        None => below,
    }
}

// The styles of the one layer, and those of the other where it has none. This costs the runs of both.
pub(crate) fn overlaid(
    alloc: Global,
    above: &StyleRuns,
    below: &StyleRuns,
) -> Result<StyleRuns, NoMemory>
    requires { length above.now ≡ length below.now }
    ensures { IfOk result (λ made. made ≡ overlaid_layer above.now below.now) }
{
    let mut made = StyleRuns::new(alloc);
    let _len = above.len();
    let mut upper = above.walk_from(0);
    let mut lower = below.walk_from(0);
    while !upper.is_empty() {
        let front = upper.front();
        let other = lower.front();
        let len = front.len.min(other.len);
        made.push(len, style_over(front.style, other.style))?;
        upper.skip(len);
        lower.skip(len);
    }
    Ok(made)
}
