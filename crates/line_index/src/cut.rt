ghost use Rattle.std.specs.Prelude.{◌≡◌, ◌+◌, ◌^◌, ◌<◌, ◌≤◌, ◌++◌, ◌==◌, cond, length, take, get_or, slice_get, IfOk, IsTrue, Some};
ghost use Rattle.line_index.specs.Cuts.{firsts, span};
ghost use Rattle.line_index.specs.Sizes.{cut_of, cuts_in, is_countable, sizes_of};

use shared_tree::{Leaf, Measure, Summary};
use std::alloc::{AllocError, Global};
use std::marker::Model;

/// How long a piece is, in characters, and whether it is the first of its logical line.
#[derive(Clone, Copy, PartialEq, Eq)]
pub struct Cut {
    pub len: u64,
    pub first: bool,
}

impl Cut {
    /// The number that a leaf keeps.
    pub(crate) fn word(self) -> u64
        requires { self.len < 2 ^ 63 }
        ensures { cut_of result ≡ self }
    {
        self.len * 2 + one_if(self.first)
    }
}

/// What pieces add up to.
#[derive(Drop)]
pub struct Sizes {
    pub pieces: u64,
    /// Logical lines that begin here.
    pub lines: u64,
    pub chars: u64,
}

impl Summary for Sizes {
    ghost use Rattle.line_index.specs.Sizes.{is_countable, no_sizes, sizes_add, together};

    ghost zero = { no_sizes };

    ghost plus = { together };

    ghost fits = { is_countable };

    ghost count = { λ a. a.pieces };

    ghost adds = { sizes_add };

    fn zero() -> Self {
        Sizes {
            pieces: 0,
            lines: 0,
            chars: 0,
        }
    }

    fn plus(&self, other: &Self) -> Self {
        Sizes {
            pieces: self.pieces + other.pieces,
            lines: self.lines + other.lines,
            chars: self.chars + other.chars,
        }
    }

    fn count(&self) -> u64 {
        self.pieces
    }
}

/// How many characters.
#[derive(Clone, Copy)]
pub(crate) struct Chars;

impl Measure<Sizes> for Chars {
    ghost use Rattle.std.specs.Prelude.{refl};

    ghost width = { λ _ sizes. sizes.chars };

    ghost starts = { λ _. refl };

    fn width(&self, summary: &Sizes) -> u64 {
        summary.chars
    }
}

/// At most 64 cuts side by side, each in one number.
#[derive(Drop)]
pub struct Cuts {
    words: Vec<u64>,
}

impl Model for Cuts {
    ghost use Rattle.std.specs.Prelude.{◌≤◌, List, length};
    ghost use Rattle.line_index.specs.declared.cut.Cut.{Cut as CutValue};
    ghost use Rattle.line_index.specs.Sizes.{cuts_in};

    ghost Value = { List CutValue };

    ghost view = { λ own. cuts_in own.words.items };

    ghost invariant = { λ own. length own.words.items ≤ 64 };
}

impl Cuts {
    /// A leaf of these numbers.
    pub(crate) fn of_words(alloc: Global, words: &[u64]) -> Result<Cuts, AllocError>
        requires { length words.now ≤ 64 }
        ensures { IfOk result (λ made. made ≡ cuts_in words.now) }
    {
        Ok(Cuts {
            words: joined(alloc, words, &[], &[])?,
        })
    }

    pub(crate) fn get(&self, index: u64) -> Cut
        requires { index < length self.now }
        ensures { slice_get self.now index ≡ Some result }
    {
        cut_of(self.words[index as usize])
    }

    /// What the first `to` cuts add up to.
    pub(crate) fn sizes_to(&self, to: u64) -> Sizes
        requires inside { to ≤ length self.now }
        requires fits { IsTrue (is_countable (sizes_of self.now)) }
        ensures { result ≡ sizes_of (take to self.now) }
    {
        sizes_of(self.words.split_at(to as usize).0)
    }

    /// The index of the cut that has the character with this index.
    pub(crate) fn index_of(&self, character: u64) -> u64
        requires inside { character < span self.now }
        requires fits { span self.now < 2 ^ 64 }
        ensures index { result < length self.now }
        ensures by_then { span (take result self.now) ≤ character }
        ensures last { character < span (take (result + 1) self.now) }
    {
        index_of(&self.words, character)
    }
}

impl Leaf for Cuts {
    ghost use Rattle.line_index.specs.Sizes.{sizes_of, sizes_sum};

    type Item = Cut;

    type Sum = Sizes;

    ghost items = { λ own. own };

    ghost summed = { sizes_of };

    ghost sums = { sizes_sum };

    fn len(&self) -> u64 {
        self.words.len() as u64
    }

    fn summary(&self) -> Sizes {
        sizes_of(&self.words)
    }

    fn part(&self, alloc: Global, from: u64, to: u64) -> Result<Self, AllocError> {
        let (_, back) = self.words.split_at(from as usize);
        let (part, _) = back.split_at((to - from) as usize);
        Ok(Cuts {
            words: joined(alloc, part, &[], &[])?,
        })
    }

    fn glued(&self, alloc: Global, other: &Self) -> Result<Option<Self>, AllocError> {
        if self.words.len() + other.words.len() > 64 {
            return Ok(None);
        }
        Ok(Some(Cuts {
            words: joined(alloc, &self.words, &other.words, &[])?,
        }))
    }

    fn spliced(
        &self,
        alloc: Global,
        from: u64,
        to: u64,
        other: &Self,
    ) -> Result<Option<Self>, AllocError> {
        let (front, _) = self.words.split_at(from as usize);
        let (_, back) = self.words.split_at(to as usize);
        if front.len() + other.words.len() + back.len() > 64 {
            return Ok(None);
        }
        Ok(Some(Cuts {
            words: joined(alloc, front, &other.words, back)?,
        }))
    }

    fn without(&self, alloc: Global, from: u64, to: u64) -> Result<Self, AllocError> {
        let (front, _) = self.words.split_at(from as usize);
        let (_, back) = self.words.split_at(to as usize);
        Ok(Cuts {
            words: joined(alloc, front, &[], back)?,
        })
    }
}

/// The cut that a number stands for.
fn cut_of(word: u64) -> Cut
    ensures { result ≡ cut_of word }
{
    Cut {
        len: word / 2,
        first: word % 2 == 1,
    }
}

/// Three stretches of numbers, one after the other.
fn joined(
    alloc: Global,
    front: &[u64],
    middle: &[u64],
    back: &[u64],
) -> Result<Vec<u64>, AllocError>
    ensures { IfOk result (λ made. made.items ≡ front.now ++ (middle.now ++ back.now)) }
{
    let mut made = Vec::with_capacity(alloc, front.len() + middle.len() + back.len())?;
    made.extend_from_slice(front)?;
    made.extend_from_slice(middle)?;
    made.extend_from_slice(back)?;
    Ok(made)
}

/// What the cuts add up to.
fn sizes_of(words: &[u64]) -> Sizes
    requires { IsTrue (is_countable (sizes_of (cuts_in words.now))) }
    ensures { result ≡ sizes_of (cuts_in words.now) }
{
    Sizes {
        pieces: words.len() as u64,
        lines: firsts(words),
        chars: span(words),
    }
}

/// How many of the cuts are the first of a logical line.
fn firsts(words: &[u64]) -> u64
    ensures { result ≡ firsts (cuts_in words.now) }
{
    let mut count: u64 = 0;
    for word in words {
        count += one_if(cut_of(*word).first);
    }
    count
}

fn one_if(counts: bool) -> u64
    ensures value { result ≡ cond counts 1 0 }
    ensures small { result ≤ 1 }
{
    if counts { 1 } else { 0 }
}

/// How many characters they have.
fn span(words: &[u64]) -> u64
    requires { span (cuts_in words.now) < 2 ^ 64 }
    ensures { result ≡ span (cuts_in words.now) }
{
    let mut count: u64 = 0;
    for word in words {
        count += cut_of(*word).len;
    }
    count
}

fn index_of(words: &[u64], character: u64) -> u64
    requires inside { character < span (cuts_in words.now) }
    requires fits { span (cuts_in words.now) < 2 ^ 64 }
    ensures index { result < length (cuts_in words.now) }
    ensures by_then { span (take result (cuts_in words.now)) ≤ character }
    ensures last { character < span (take (result + 1) (cuts_in words.now)) }
{
    let mut count: u64 = 0;
    let mut index: u64 = 0;
    for word in words {
        count += cut_of(*word).len;
        if count > character {
            return index;
        }
        index += 1;
    }
    index
}
