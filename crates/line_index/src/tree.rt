// Reads of a tree of cuts: each costs the height of the tree, and a walk in one leaf.
ghost use Rattle.std.specs.Prelude.{◌≡◌, ◌+◌, ◌^◌, ◌<◌, ◌++◌, if◌then◌else◌, true, length, take, slice_get, None, Some, IfOk, IsTrue, OnOk};
ghost use Rattle.line_index.specs.Cuts.{cuts_from, pieces_at};
ghost use Rattle.line_index.specs.Inner.{cuts_under, IsCutAt, RiseFrom};
ghost use Rattle.line_index.specs.Sizes.{cuts_in, is_countable, sizes_of};

use crate::cut::{Chars, Cut, Cuts, Sizes};
use plain_screen::Piece;
use plain_text::NoMemory;
use shared_tree::{Count, Summary, Tree};
use std::alloc::Global;

/// The piece with this index.
pub(crate) fn piece_at(cuts: &Tree<Cuts>, index: u64) -> Piece
    requires { index < length (cuts_under cuts.now) }
    ensures { slice_get (pieces_at 1 0 (cuts_under cuts.now)) index ≡ Some result }
{
    let (before, cut) = cut_at(cuts, index);
    Piece {
        start: before.chars,
        end: before.chars + cut.len,
        ln: number_of(cut.first, before.lines),
    }
}

/// The cut with this index, and what all cuts before it add up to.
fn cut_at(cuts: &Tree<Cuts>, index: u64) -> (Sizes, Cut)
    requires { index < length (cuts_under cuts.now) }
    ensures before { result.0 ≡ sizes_of (take index (cuts_under cuts.now)) }
    ensures cut { slice_get (cuts_under cuts.now) index ≡ Some result.1 }
    ensures end { result.0.chars + result.1.len < 2 ^ 64 }
    ensures number { result.0.lines + 1 < 2 ^ 64 }
{
    let _all = cuts.summary();
    let (leaf, before) = cuts.find(&Count, index + 1);
    let at = index - before.pieces;
    (before.plus(&leaf.sizes_to(at)), leaf.get(at))
}

/// The number of a logical line with so many lines before it, on its first piece.
fn number_of(first: bool, before: u64) -> Option<u64>
    requires { before + 1 < 2 ^ 64 }
    ensures { result ≡ (if first then Some (1 + before) else None) }
{
    if first { Some(1 + before) } else { None }
}

/// The index of the last cut that starts by a gap.
pub(crate) fn index_at(cuts: &Tree<Cuts>, gap: u64) -> u64
    requires { 0 < length (cuts_under cuts.now) }
    ensures { IsCutAt (cuts_under cuts.now) gap result }
{
    let all = cuts.summary();
    if gap >= all.chars {
        return all.pieces - 1;
    }
    let (leaf, before) = cuts.find(&Chars, gap + 1);
    before.pieces + leaf.index_of(gap - before.chars)
}

/// Puts the cuts of a line that ends its pieces at these gaps behind those of the tree.
pub(crate) fn put_line(tree: &mut Tree<Cuts>, alloc: Global, ends: &[u64]) -> Result<(), NoMemory>
    requires rise { RiseFrom 0 ends.now }
    requires fits { IsTrue (is_countable (sizes_of (cuts_under tree.old ++ cuts_from true 0 ends.now))) }
    ensures { OnOk result (cuts_under tree.new ≡ cuts_under tree.old ++ cuts_from true 0 ends.now) }
{
    let words = words_of(alloc, ends)?;
    put_words(tree, alloc, &words)
}

/// The numbers of the cuts of a line.
fn words_of(alloc: Global, ends: &[u64]) -> Result<Vec<u64>, NoMemory>
    requires { RiseFrom 0 ends.now }
    ensures { IfOk result (λ words. cuts_in words.items ≡ cuts_from true 0 ends.now) }
{
    let mut words = Vec::with_capacity(alloc, ends.len())?;
    let mut from: u64 = 0;
    for end in ends {
        let cut = Cut {
            len: *end - from,
            first: words.is_empty(),
        };
        words.push(cut.word())?;
        from = *end;
    }
    Ok(words)
}

/// Puts cuts behind those of the tree, 64 in a leaf.
fn put_words(tree: &mut Tree<Cuts>, alloc: Global, words: &[u64]) -> Result<(), NoMemory>
    requires { IsTrue (is_countable (sizes_of (cuts_under tree.old ++ cuts_in words.now))) }
    ensures { OnOk result (cuts_under tree.new ≡ cuts_under tree.old ++ cuts_in words.now) }
{
    let mut rest = words;
    while !rest.is_empty() {
        let (leaf, later) = rest.split_at(rest.len().min(64));
        tree.push_leaf(alloc, Cuts::of_words(alloc, leaf)?)?;
        rest = later;
    }
    Ok(())
}
