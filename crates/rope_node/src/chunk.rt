ghost use Rattle.std.specs.Prelude.{◌≡◌, ◌≤◌, ◌++◌, length, take, drop, cond, IfOk};
ghost use Rattle.std.specs.Str.{chars, IsUtf8};
ghost use Rattle.plain_text.specs.Text.{byte_len, place_of};
ghost use Rattle.rope_node.specs.Lengths.{lengths_of, wide_count, lf_count};

use crate::Lengths;
use plain_text::{NoMemory, Text, TryClone, split_at_gap};
use shared_tree::{Leaf, Summary};
use std::alloc::{AllocError, Global};
use std::marker::Model;

/// A text of at most 1,024 bytes, with its lengths.
#[derive(Drop)]
pub struct Chunk {
    text: Text,
    lengths: Lengths,
}

impl Model for Chunk {
    ghost use Rattle.std.specs.Prelude.{◌≡◌, ℕ, ◌≤◌, List};
    ghost use Rattle.plain_text.specs.Text.{byte_len};
    ghost use Rattle.rope_node.specs.Lengths.{lengths_of};

    ghost Value = { List ℕ };

    ghost view = { λ chunk. chunk.text };

    ghost invariant = { λ chunk. (chunk.lengths ≡ lengths_of chunk.text) × (byte_len chunk.text ≤ 1024) };
}

impl Chunk {
    pub fn new(text: Text) -> Chunk
        requires { byte_len text ≤ 1024 }
        ensures { result ≡ text }
    {
        let lengths = measured(text.as_str());
        Chunk { text, lengths }
    }

    pub fn text(&self) -> &Text
        ensures text { result.now ≡ self.now }
        ensures short { byte_len self.now ≤ 1024 }
    {
        &self.text
    }

    /// The characters left of a gap and those right of it. Where each takes one byte, no character is read.
    pub fn cut(&self, gap: u64) -> (&str, &str)
        requires { gap ≤ length self.now }
        ensures front { chars result.0.now ≡ take gap self.now }
        ensures back { chars result.1.now ≡ drop gap self.now }
        ensures utf8 { IsUtf8 result.1.now }
        ensures bytes { length result.0.now ≡ place_of self.now gap }
        ensures short { byte_len self.now ≤ 1024 }
    {
        let text = self.text.as_str();
        if self.lengths.chars == self.lengths.bytes {
            return split_at_place(text, gap);
        }
        split_at_gap(text, gap)
    }

    // The chunk with `added` in place of `gone`, which stands between `front` and `back`. Only what goes and comes is measured.
    fn put(
        &self,
        alloc: Global,
        front: &str,
        gone: &str,
        back: &str,
        added: &Text,
    ) -> Result<Chunk, NoMemory>
        requires whole { self.now ≡ chars front.now ++ (chars gone.now ++ chars back.now) }
        requires short { byte_len (chars front.now ++ (added.now ++ chars back.now)) ≤ 1024 }
        ensures { IfOk result (λ made. made ≡ chars front.now ++ (added.now ++ chars back.now)) }
    {
        let lengths = self
            .lengths
            .changed(&measured(gone), &measured(added.as_str()));
        let bytes = front.len() + added.as_str().len() + back.len();
        let mut text = Text::from_string(String::with_capacity(alloc, bytes)?);
        text.push_str(front)?;
        text.push_text(added)?;
        text.push_str(back)?;
        Ok(Chunk { text, lengths })
    }
}

impl Leaf for Chunk {
    ghost use Rattle.rope_node.specs.Lengths.{lengths_of, lengths_sum};

    type Item = char;

    type Sum = Lengths;

    ghost items = { λ chunk. chunk };

    ghost summed = { lengths_of };

    ghost sums = { lengths_sum };

    fn len(&self) -> u64 {
        self.lengths.chars
    }

    fn summary(&self) -> Lengths {
        self.lengths.copy()
    }

    fn part(&self, alloc: Global, from: u64, to: u64) -> Result<Self, AllocError> {
        match self.text.slice(alloc, from, to) {
            Ok(text) => Ok(Chunk::new(text)),
            Err(_) => Err(AllocError),
        }
    }

    fn glued(&self, alloc: Global, other: &Self) -> Result<Option<Self>, AllocError> {
        if self.lengths.bytes + other.lengths.bytes > 1024 {
            return Ok(None);
        }
        match joined(alloc, &self.text, &other.text) {
            Ok(text) => Ok(Some(Chunk {
                text,
                lengths: self.lengths.plus(&other.lengths),
            })),
            Err(_) => Err(AllocError),
        }
    }

    fn spliced(
        &self,
        alloc: Global,
        from: u64,
        to: u64,
        other: &Self,
    ) -> Result<Option<Self>, AllocError> {
        let (front, rest) = self.cut(from);
        let (gone, back) = split_at_gap(rest, to - from);
        if front.len() + other.text.as_str().len() + back.len() > 1024 {
            return Ok(None);
        }
        match self.put(alloc, front, gone, back, &other.text) {
            Ok(made) => Ok(Some(made)),
            Err(_) => Err(AllocError),
        }
    }

    fn without(&self, alloc: Global, from: u64, to: u64) -> Result<Self, AllocError> {
        let (front, rest) = self.cut(from);
        let (gone, back) = split_at_gap(rest, to - from);
        match self.put(alloc, front, gone, back, &Text::new(alloc)) {
            Ok(made) => Ok(made),
            Err(_) => Err(AllocError),
        }
    }
}

/// The first `gap` characters and the others, where each takes one byte.
fn split_at_place(text: &str, gap: u64) -> (&str, &str)
    requires inside { gap ≤ length (chars text.now) }
    requires plain { length (chars text.now) ≡ byte_len (chars text.now) }
    ensures front { chars result.0.now ≡ take gap (chars text.now) }
    ensures back { chars result.1.now ≡ drop gap (chars text.now) }
    ensures utf8 { IsUtf8 result.1.now }
    ensures bytes { length result.0.now ≡ place_of (chars text.now) gap }
{
    text.split_at(gap as usize)
}

fn joined(alloc: Global, left: &Text, right: &Text) -> Result<Text, NoMemory>
    ensures { IfOk result (λ made. made ≡ left.now ++ right.now) }
{
    let mut made = left.copy(alloc)?;
    made.push_text(right)?;
    Ok(made)
}

/// The lengths of a short text.
fn measured(text: &str) -> Lengths
    requires { length text.now ≤ 1024 }
    ensures { result ≡ lengths_of (chars text.now) }
{
    let chars = char_count(text);
    Lengths {
        chars,
        bytes: text.len() as u64,
        utf16: chars + wide_count(text),
        lines: lf_count(text),
    }
}

fn char_count(text: &str) -> u64
    ensures { result ≡ length (chars text.now) }
{
    text.chars().count() as u64
}

/// How many characters take two units of UTF-16.
fn wide_count(text: &str) -> u64
    ensures { result ≡ wide_count (chars text.now) }
{
    let mut count: u64 = 0;
    for c in text.chars() {
        count += one_if(c >= '\u{10000}');
    }
    count
}

/// How many LFs.
fn lf_count(text: &str) -> u64
    ensures { result ≡ lf_count (chars text.now) }
{
    let mut count: u64 = 0;
    for c in text.chars() {
        count += one_if(c == '\n');
    }
    count
}

fn one_if(counts: bool) -> u64
    ensures value { result ≡ cond counts 1 0 }
    ensures small { result ≤ 1 }
{
    if counts { 1 } else { 0 }
}
