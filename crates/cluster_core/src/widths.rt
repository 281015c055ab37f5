ghost use Rattle.std.specs.Prelude.{◌≡◌, ◌+◌, ◌-◌, ◌*◌, ◌^◌, ◌<◌, ◌≤◌, length, slice_range, IsTrue};
ghost use Rattle.std.specs.Str.{chars};
ghost use Rattle.cluster_core.specs.Columns.{tab_stop, column_after, columns_between};
ghost use Rattle.cluster_core.specs.Plain.{IsPrintable};

use plain_text::split_at_gap;
use unicode_segmentation::UnicodeSegmentation;
use unicode_width::UnicodeWidthStr;

/// The columns of the line, in its time. A tab goes to the next multiple of `tab`, which is to be from 1 to 16; where it is 0, a tab
/// takes no column. It takes no memory.
pub fn columns(line: &str, tab: u32) -> u128
    ensures value { result ≡ columns_between tab (chars line.now) 0 (length (chars line.now)) }
    ensures bound { result ≤ 2 ^ 32 * length line.now }
{
    let mut column: u128 = 0;
    for cluster in line.graphemes(true) {
        column = column_after(tab, column, cluster);
    }
    column
}

/// The columns between two gaps of the line, which may be any numbers. A tab goes to the next multiple of `tab` from the first gap, and
/// a cluster that a gap cuts counts with what stands between them. It walks the line up to the second gap, and takes no memory.
pub fn columns_between(line: &str, from: u64, to: u64, tab: u32) -> u128
    ensures value { result ≡ columns_between tab (chars line.now) from to }
    ensures bound { result ≤ 2 ^ 32 * length line.now }
{
    let mut column: u128 = 0;
    let mut gap: u64 = 0;
    for cluster in line.graphemes(true) {
        if to <= gap {
            break;
        }
        let part = part_of(cluster, from.saturating_sub(gap), to - gap);
        column = column_after(tab, column, part);
        gap += char_count(cluster);
    }
    column
}

/// What stands between two gaps of a text, which may be any numbers.
fn part_of(text: &str, from: u64, to: u64) -> &str
    ensures part { chars result.now ≡ slice_range (chars text.now) from to }
    ensures len { length result.now ≤ length text.now }
{
    let count = char_count(text);
    let low = from.min(count);
    let high = to.min(count);
    split_at_gap(split_at_gap(text, low).1, high.saturating_sub(low)).0
}

pub(crate) fn char_count(text: &str) -> u64
    ensures count { result ≡ length (chars text.now) }
    ensures bound { result ≤ length text.now }
{
    text.chars().count() as u64
}

/// The column after a cluster, or after what is left of one, that begins at `column`.
pub(crate) fn column_after(tab: u32, column: u128, cluster: &str) -> u128
    requires { column < 2 ^ 100 }
    ensures value { result ≡ column_after tab column (chars cluster.now) }
    ensures bound { result ≤ column + 2 ^ 32 * length cluster.now }
{
    if is_printable(cluster.as_bytes()) {
        column + 1
    } else {
        column_by_width(tab, column, cluster)
    }
}

/// Whether this is one character from a space to `~`, which takes one column.
fn is_printable(bytes: &[u8]) -> bool
    ensures { IsTrue result → IsPrintable bytes.now }
{
    match bytes {
        [byte] => b' ' <= *byte && *byte <= b'~',
        _ => false,
    }
}

/// The same of any cluster, by its first character and its width.
fn column_by_width(tab: u32, column: u128, cluster: &str) -> u128
    requires { column < 2 ^ 100 }
    ensures value { result ≡ column_after tab column (chars cluster.now) }
    ensures bound { result ≤ column + 2 ^ 32 * length cluster.now }
{
    match cluster.chars().next() {
        None => column,
        Some('\t') => tab_stop(tab, column),
        Some(c) if c.is_control() => column + 1,
        Some(_) => column + cluster.width() as u128,
    }
}

fn tab_stop(tab: u32, column: u128) -> u128
    requires { column < 2 ^ 100 }
    ensures value { result ≡ tab_stop tab column }
    ensures bound { result ≤ column + 2 ^ 32 }
{
    if tab == 0 {
        return column;
    }
    let tab = tab as u128;
    (column / tab + 1) * tab
}
