ghost use Rattle.std.specs.Prelude.{◌≡◌, Some, None, IfErr, OnOk};
ghost use Rattle.plain_edits.specs.Delta.{Fits, copy_misfit, misfit_of};

use plain_edits::{Delta, El, Misfit};
use plain_text::Text;

/// Whether the delta fits the text, or else its first misfit: the base length is looked at first, and then each copy in the order of
/// the list. This takes no memory, and costs the elements of the delta.
pub fn fits(text: &Text, delta: &Delta) -> Result<(), Misfit>
    ensures fits { OnOk result (Fits text.now delta.now) }
    ensures misfit { IfErr result (λ misfit. misfit_of text.now delta.now ≡ Some misfit) }
{
    if delta.base_len != text.byte_len() {
        return Err(Misfit {
            kind: 1,
            at: delta.base_len,
        });
    }
    let mut end = 0;
    for el in delta.els.as_slice() {
        if let El::Copy { a, b } = el {
            if let Some(misfit) = copy_misfit(text, end, *a, *b) {
                return Err(misfit);
            }
            end = *b;
        }
    }
    Ok(())
}

// The misfit of one copy, where the copy before it ends at `end`.
fn copy_misfit(text: &Text, end: u64, a: u64, b: u64) -> Option<Misfit>
    ensures { result ≡ copy_misfit text.now end a b }
{
    if b < a || a < end {
        return Some(Misfit { kind: 2, at: a });
    }
    if text.byte_len() < b {
        return Some(Misfit { kind: 3, at: b });
    }
    if !text.is_place(a) {
        return Some(Misfit { kind: 4, at: a });
    }
    if !text.is_place(b) {
        return Some(Misfit { kind: 4, at: b });
    }
    None
}
