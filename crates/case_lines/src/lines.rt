ghost use Rattle.std.specs.Prelude.{◌≡◌, ◌+◌, ◌==◌, ◌≤◌, length, take, drop};
ghost use Rattle.std.specs.List.{position_or_len};
ghost use Rattle.case_lines.specs.Lines.{after_line, after_word, content_of, first_line, first_word};

/// The first line of the bytes with its LF, where it has one, and the bytes after it. The line is empty only at the end.
pub fn first_line(bytes: &[u8]) -> (&[u8], &[u8])
    ensures line { result.0.now ≡ first_line bytes.now }
    ensures rest { result.1.now ≡ after_line bytes.now }
{
    split_after(bytes, place_of(b'\n', bytes))
}

/// The line without its LF.
pub fn content_of(line: &[u8]) -> &[u8]
    ensures { result.now ≡ content_of line.now }
{
    match line.split_last() {
        Some((last, content)) if *last == b'\n' => content,
        _ => line,
    }
}

/// The words of a line, one after the other; each ends where a space stands, so that two spaces have the empty word between them.
#[derive(Drop)]
pub struct Words<'a> {
    /// What is not read yet.
    pub rest: &'a [u8],
}

impl<'a> Words<'a> {
    /// The next word; at the end it is empty.
    pub fn next_word(&mut self) -> &'a [u8]
        ensures word { result.now ≡ first_word self.old.rest.now }
        ensures rest { self.new.rest.now ≡ after_word self.old.rest.now }
    {
        let place = place_of(b' ', self.rest);
        let (word, _) = self.rest.split_at(place);
        let (_, rest) = split_after(self.rest, place);
        self.rest = rest;
        word
    }
}

/// Where the byte stands first, or the length of the bytes.
fn place_of(byte: u8, bytes: &[u8]) -> usize
    ensures place { result ≡ position_or_len (λ b. b == byte) bytes.now }
    ensures within { result ≤ length bytes.now }
{
    for (place, b) in bytes.iter().enumerate() {
        if *b == byte {
            return place;
        }
    }
    bytes.len()
}

/// What stands up to this place and at it, and what stands after it.
fn split_after(bytes: &[u8], place: usize) -> (&[u8], &[u8])
    requires { place ≤ length bytes.now }
    ensures front { result.0.now ≡ take (place + 1) bytes.now }
    ensures back { result.1.now ≡ drop (place + 1) bytes.now }
{
    if place < bytes.len() {
        bytes.split_at(place + 1)
    } else {
        bytes.split_at(place)
    }
}
