ghost use Rattle.std.specs.Prelude.{◌≡◌, ℕ, ◌+◌, ◌-◌, ◌≤◌, ◌↔◌, List, Some, take, drop, [], ◌∷◌, ◌++◌, length, IsTrue, IfOk, IfErr, IsOk, OnOk, OnErr, true, refl};
ghost use Rattle.std.specs.Str.{chars, encode_utf8_all, all_scalars, bytes_eq, IsAscii, IsUtf8};
ghost use Rattle.std.specs.Ordering.{nat_cmp};
ghost use Rattle.std.specs.Cmp.{on_per, on_equiv, on_total, on_po, partial_equiv_from_equiv};
ghost use Rattle.std.specs.Cmp.Lexicographic.{slice_cmp, nat_list_eq_equiv, nat_list_cmp_total, texts_ties, texts_po};
ghost use Rattle.std.specs.String.{string_bytes};
ghost use Rattle.plain_text.specs.Text.{byte_len, gap_at, gap_of, is_place, place_of, starts_character};

use crate::list::List;
use crate::memory::{NoMemory, TryClone};
use std::alloc::Global;
use std::cmp::Ordering;
use std::fmt;
use std::marker::Model;

/// A list of characters, held as UTF-8: a text of ASCII takes one byte a character.
#[derive(Drop)]
pub struct Text {
    utf8: String,
}

impl Model for Text {
    ghost use Rattle.std.specs.Prelude.{ℕ, List};
    ghost use Rattle.std.specs.Str.{chars};
    ghost use Rattle.std.specs.String.{string_bytes};

    ghost Value = { List ℕ };

    ghost view = { λ t. chars (string_bytes t.utf8) };
}

/// Texts, in order.
pub type Texts = List<Text>;

/// Bytes, in order.
pub type Bytes = List<u8>;

/// Byte offsets in a text, rising.
pub type Offsets = List<u64>;

impl Text {
    /// The empty text, which takes no memory.
    pub fn new(alloc: Global) -> Text
        ensures { result ≡ [] }
    {
        Text {
            utf8: String::new(alloc),
        }
    }

    /// A copy of the characters of a `str`.
    pub fn from_str(alloc: Global, text: &str) -> Result<Text, NoMemory>
        ensures made { IfOk result (λ made. made ≡ chars text.now) }
    {
        Ok(Text {
            utf8: String::from_str(alloc, text)?,
        })
    }

    /// The characters of a `String`, which is kept as it is.
    pub fn from_string(utf8: String) -> Text
        ensures { result ≡ chars (string_bytes utf8) }
    {
        Text { utf8 }
    }

    /// The text of ASCII characters, for names and messages that stand in the code.
    pub fn from_ascii(alloc: Global, ascii: &str) -> Result<Text, NoMemory>
        requires { IsAscii ascii.now }
        ensures made { IfOk result (λ made. made ≡ ascii.now) }
    {
        Text::from_str(alloc, ascii)
    }

    /// The text that these bytes are in UTF-8, with no copy. `Err` gives them back, exactly where they are not UTF-8.
    pub fn from_utf8(bytes: Vec<u8>) -> Result<Text, Vec<u8>>
        ensures utf8 { IsOk result ↔ IsUtf8 bytes.items }
        ensures made { IfOk result (λ made. encode_utf8_all made ≡ bytes.items) }
        ensures back { IfErr result (λ given. given ≡ bytes) }
    {
        match String::from_utf8(bytes) {
            Ok(utf8) => Ok(Text { utf8 }),
            Err(error) => Err(error.into_bytes()),
        }
    }

    /// The text as bytes of UTF-8, with no copy.
    pub fn into_bytes(self) -> Vec<u8>
        ensures { result.items ≡ encode_utf8_all self }
    {
        self.into_string().into_bytes()
    }

    /// The text as a `String`, with no copy.
    pub fn into_string(self) -> String
        ensures utf8 { string_bytes result ≡ encode_utf8_all self }
        ensures characters { chars (string_bytes result) ≡ self }
    {
        let Text { utf8 } = self;
        utf8
    }

    /// The text as UTF-8, with no copy.
    pub fn as_str(&self) -> &str
        ensures utf8 { result.now ≡ encode_utf8_all self.now }
        ensures characters { chars result.now ≡ self.now }
        ensures scalars { all_scalars self.now ≡ true }
    {
        self.utf8.as_str()
    }

    /// How many bytes the text takes in UTF-8; this costs nothing.
    pub fn byte_len(&self) -> u64
        ensures { result ≡ byte_len self.now }
    {
        self.as_str().len() as u64
    }

    /// How many characters the text has; this walks the text.
    pub fn char_count(&self) -> u64
        ensures { result ≡ length self.now }
    {
        char_count(self.as_str())
    }

    pub fn is_empty(&self) -> bool
        ensures { IsTrue result ↔ (self.now ≡ []) }
    {
        self.as_str().is_empty()
    }

    /// Puts a character at the end. After want of memory the text is as before.
    pub fn push(&mut self, character: char) -> Result<(), NoMemory>
        ensures pushed { OnOk result (self.new ≡ self.old ++ character ∷ []) }
        ensures unchanged { OnErr result (self.new ≡ self.old) }
    {
        self.utf8.push(character)?;
        Ok(())
    }

    /// Puts a text at the end. After want of memory the text is as before.
    pub fn push_text(&mut self, other: &Text) -> Result<(), NoMemory>
        ensures pushed { OnOk result (self.new ≡ self.old ++ other.now) }
        ensures unchanged { OnErr result (self.new ≡ self.old) }
    {
        self.push_str(other.as_str())
    }

    /// Puts the characters of a `str` at the end. After want of memory the text is as before.
    pub fn push_str(&mut self, other: &str) -> Result<(), NoMemory>
        ensures pushed { OnOk result (self.new ≡ self.old ++ chars other.now) }
        ensures unchanged { OnErr result (self.new ≡ self.old) }
    {
        self.utf8.push_str(other)?;
        Ok(())
    }

    /// The gap whose place is this byte offset; `None` exactly where the offset is no place. This walks the text up to it.
    pub fn gap_at(&self, at: u64) -> Option<u64>
        ensures { result ≡ gap_at self.now at }
    {
        gap_in(self.as_str(), at)
    }

    /// The byte offset of a gap, or of the end where there is no such gap. This walks the text up to it.
    pub fn place_of(&self, gap: u64) -> u64
        ensures { result ≡ place_of self.now gap }
    {
        place_in(self.as_str(), gap)
    }

    /// Whether the byte offset is a place: the end of some first characters. This costs nothing.
    pub fn is_place(&self, at: u64) -> bool
        ensures { result ≡ is_place self.now at }
    {
        self.as_str().is_char_boundary(at as usize)
    }

    /// How many gaps it is from one place to another. This walks the characters between them.
    pub fn gaps_between(&self, from: u64, to: u64) -> u64
        requires ordered { from ≤ to }
        requires start { IsTrue (is_place self.now from) }
        requires end { IsTrue (is_place self.now to) }
        ensures { gap_of self.now from + result ≡ gap_of self.now to }
    {
        self.as_str()[from as usize..to as usize].chars().count() as u64
    }

    /// The characters between two gaps. This walks the text up to the second gap and copies what it gives.
    pub fn slice(&self, alloc: Global, from: u64, to: u64) -> Result<Text, NoMemory>
        requires ordered { from ≤ to }
        requires inside { to ≤ length self.now }
        ensures { IfOk result (λ part. part ≡ take (to - from) (drop from self.now)) }
    {
        let part = between(self.as_str(), from, to);
        Text::from_str(alloc, part)
    }
}

impl TryClone for Text {
    fn copy(&self, alloc: Global) -> Result<Text, NoMemory> {
        Text::from_str(alloc, self.as_str())
    }
}

impl fmt::Display for Text {
    ghost output = { λ t. Some (encode_utf8_all t) };

    fn fmt<W: fmt::Write>(&self, f: &mut fmt::Formatter<W>) -> fmt::Result {
        f.write_str(self.as_str())
    }
}

impl fmt::Debug for Text {
    fn fmt<W: fmt::Write>(&self, f: &mut fmt::Formatter<W>) -> fmt::Result {
        fmt::Debug::fmt(&self.as_str(), f)
    }
}

impl PartialEq for Text {
    ghost eq = { λ a b. bytes_eq (encode_utf8_all a) (encode_utf8_all b) };

    ghost laws = { on_per (λ t. encode_utf8_all t) (partial_equiv_from_equiv nat_list_eq_equiv) };

    fn eq(&self, other: &Text) -> bool {
        self.as_str() == other.as_str()
    }
}

impl Eq for Text {
    ghost laws = { on_equiv (λ t. encode_utf8_all t) nat_list_eq_equiv };
}

/// Texts stand in the order of their bytes, which is that of their characters' numbers.
impl PartialOrd for Text {
    ghost partial_cmp = { λ a b. Some (slice_cmp nat_cmp (encode_utf8_all a) (encode_utf8_all b)) };

    ghost laws = { on_po (λ t. encode_utf8_all t) texts_po };

    fn partial_cmp(&self, other: &Text) -> Option<Ordering> {
        Some(self.cmp(other))
    }
}

impl Ord for Text {
    ghost cmp = { λ a b. slice_cmp nat_cmp (encode_utf8_all a) (encode_utf8_all b) };

    ghost total = { on_total (λ t. encode_utf8_all t) nat_list_cmp_total };

    ghost matches_partial_cmp = { λ a b. refl };

    ghost matches_eq = { λ a b. texts_ties (encode_utf8_all a) (encode_utf8_all b) };

    fn cmp(&self, other: &Text) -> Ordering {
        self.as_str().cmp(other.as_str())
    }
}

// How many characters a text has, by the bytes that start one.
fn char_count(text: &str) -> u64
    ensures { result ≡ length (chars text.now) }
{
    let mut count: u64 = 0;
    let bytes = text.as_bytes();
    for byte in bytes {
        if starts_character(*byte) {
            count += 1;
        }
    }
    count
}

fn starts_character(byte: u8) -> bool
    ensures { result ≡ starts_character byte }
{
    byte < 128 || 192 <= byte
}

/// The gap whose place in the text is this byte offset.
fn gap_in(text: &str, at: u64) -> Option<u64>
    ensures { result ≡ gap_at (chars text.now) at }
{
    let mut gap: u64 = 0;
    let mut left = at;
    for c in text.chars() {
        if left == 0 {
            return Some(gap);
        }
        let width = c.len_utf8() as u64;
        if left < width {
            return None;
        }
        left -= width;
        gap += 1;
    }
    if left == 0 { Some(gap) } else { None }
}

/// The byte offset of a gap, or of the end where there is no such gap. This walks the text up to it.
pub fn place_in(text: &str, gap: u64) -> u64
    ensures { result ≡ place_of (chars text.now) gap }
{
    let mut place: u64 = 0;
    let mut left = gap;
    for c in text.chars() {
        if left == 0 {
            break;
        }
        place += c.len_utf8() as u64;
        left -= 1;
    }
    place
}

/// The part of the text between two gaps.
fn between(text: &str, from: u64, to: u64) -> &str
    requires ordered { from ≤ to }
    requires inside { to ≤ length (chars text.now) }
    ensures { chars result.now ≡ take (to - from) (drop from (chars text.now)) }
{
    &text[place_in(text, from) as usize..place_in(text, to) as usize]
}

/// The first `gap` characters and the others. This walks the first, and takes no memory.
pub fn split_at_gap(text: &str, gap: u64) -> (&str, &str)
    requires { gap ≤ length (chars text.now) }
    ensures front { chars result.0.now ≡ take gap (chars text.now) }
    ensures back { chars result.1.now ≡ drop gap (chars text.now) }
    ensures utf8 { IsUtf8 result.1.now }
    ensures bytes { length result.0.now ≡ place_of (chars text.now) gap }
{
    text.split_at(place_in(text, gap) as usize)
}
