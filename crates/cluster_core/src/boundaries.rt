ghost use Rattle.std.specs.Prelude.{◌≡◌, ◌↔◌, IsNone, IfOk, IfSome};
ghost use Rattle.cluster_core.specs.Boundaries.{ends_of, next_of, prev_of, IsLeastAbove, IsGreatestBelow, HasNoneAbove, HasNoneBelow};

use plain_text::{NoMemory, Offsets};
use std::alloc::Global;
use unicode_segmentation::{GraphemeCursor, UnicodeSegmentation};

/// The byte ends of the clusters, in the time of the line. Want of memory is its only error.
pub fn clusters(alloc: Global, line: &str) -> Result<Offsets, NoMemory>
    ensures { IfOk result (λ ends. ends ≡ ends_of line.now) }
{
    let mut ends = Vec::new(alloc);
    let mut end: usize = 0;
    for cluster in line.graphemes(true) {
        end += cluster.len();
        ends.push(end as u64)?;
    }
    Ok(Offsets::from_vec(ends))
}

/// The least boundary above the offset, which may be any number; `None` where there is none. It takes no memory.
///
/// It reads on to the end of the cluster at the offset, and back over one run of regional indicators or of marks where a rule
/// asks for it. The rest of the line costs nothing.
pub fn next(line: &str, at: usize) -> Option<usize>
    ensures value { result ≡ next_of line.now at }
    ensures least { IfSome result (IsLeastAbove line.now at) }
    ensures none { IsNone result ↔ HasNoneAbove line.now at }
{
    let mut cursor = GraphemeCursor::new(line.floor_char_boundary(at), line.len(), true);
    match cursor.next_boundary(line, 0) {
        Ok(end) => end,
        Err(_) => unreachable!(),
    }
}

/// The greatest boundary below the offset, which may be any number; `None` where there is none. It takes no memory.
///
/// It reads back to the start of the cluster before the offset, and from there over such a run as [`next`] reads.
pub fn prev(line: &str, at: usize) -> Option<usize>
    ensures value { result ≡ prev_of line.now at }
    ensures greatest { IfSome result (IsGreatestBelow line.now at) }
    ensures none { IsNone result ↔ HasNoneBelow line.now at }
{
    if at > line.len() {
        return Some(line.len());
    }
    let mut cursor = GraphemeCursor::new(line.ceil_char_boundary(at), line.len(), true);
    match cursor.prev_boundary(line, 0) {
        Ok(start) => start,
        Err(_) => unreachable!(),
    }
}
