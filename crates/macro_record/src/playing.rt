//! Lines of a tape, played again.

ghost use Rattle.std.specs.Prelude.{◌≡◌, ℕ, ◌+◌, ◌*◌, ◌^◌, ◌<◌, ◌≤◌, ◌∷◌, ◌++◌, length, take, drop, replicate, slice_range, IfOk, OnOk};
ghost use Rattle.std.specs.List.{concat, flat_map};
ghost use Rattle.plain_text.specs.InputLines.{lines_of};
ghost use Rattle.macro_record.specs.Played.{with_lf, played_of};

use memchr::memchr;
use plain_text::{Bytes, NoMemory};
use std::alloc::Global;

/// How many lines a tape has. One walk over it.
pub fn line_count(tape: &Bytes) -> u64
    ensures { result ≡ length (lines_of tape.now) }
{
    let mut rest = tape.as_slice();
    let mut count = 0;
    while !rest.is_empty() {
        let (_line, later) = cut_line(rest);
        count += 1;
        rest = later;
    }
    count
}

/// The lines of a tape with the indices from `from` up to `to`, not included, `times` over. Each ends with LF, also the last one of a
/// tape that lacks it. One walk over the tape up to there, and the bytes of the answer; `Err` only where memory runs out.
pub fn played(
    alloc: Global,
    tape: &Bytes,
    from: u64,
    to: u64,
    times: u32,
) -> Result<Bytes, NoMemory>
    requires ordered { from ≤ to }
    requires inside { to ≤ length (lines_of tape.now) }
    requires small { length (played_of tape.now from to times) < 2 ^ 30 }
    ensures { IfOk result (λ bytes. bytes ≡ played_of tape.now from to times) }
{
    let rest = skip_lines(tape.as_slice(), from);
    let once = first_lines(alloc, rest, to - from)?;
    repeated(alloc, &once, times)
}

/// What stands after so many lines.
#[tactic(auto, using(crate::proofs::WalkLemmas::some_byte, crate::proofs::WalkLemmas::room_step, crate::proofs::WalkLemmas::drop_step))]
fn skip_lines(bytes: &[u8], count: u64) -> &[u8]
    requires { count ≤ length (lines_of bytes.now) }
    ensures { lines_of result.now ≡ drop count (lines_of bytes.now) }
{
    let mut rest = bytes;
    let mut left = count;
    while left > 0 {
        let (_line, later) = cut_line(rest);
        rest = later;
        left -= 1;
    }
    rest
}

/// The first lines, each ended by LF.
#[tactic(auto, using(crate::proofs::WalkLemmas::some_byte))]
fn first_lines(alloc: Global, bytes: &[u8], count: u64) -> Result<Vec<u8>, NoMemory>
    requires { count ≤ length (lines_of bytes.now) }
    ensures { IfOk result (λ made. made.items ≡ flat_map with_lf (take count (lines_of bytes.now))) }
{
    let mut made = Vec::new(alloc);
    let mut rest = bytes;
    let mut left = count;
    while left > 0 {
        let (line, later) = cut_line(rest);
        push_line(&mut made, line)?;
        rest = later;
        left -= 1;
    }
    Ok(made)
}

/// Puts a line at the end, with an LF behind it where it lacks one.
fn push_line(made: &mut Vec<u8>, line: &[u8]) -> Result<(), NoMemory>
    ensures { OnOk result (made.new.items ≡ made.old.items ++ with_lf line.now) }
{
    made.extend_from_slice(line)?;
    match line.split_last() {
        Some((last, _front)) if *last != b'\n' => Ok(made.push(b'\n')?),
        _ => Ok(()),
    }
}

/// The first line of an input, and what stands after it, with no copy.
pub fn cut_line(bytes: &[u8]) -> (&[u8], &[u8])
    requires { 0 < length bytes.now }
    ensures lines { lines_of bytes.now ≡ result.0.now ∷ lines_of result.1.now }
    ensures shorter { length result.1.now < length bytes.now }
{
    match memchr(b'\n', bytes) {
        Some(at) => bytes.split_at(at + 1),
        None => bytes.split_at(bytes.len()),
    }
}

/// These bytes so many times over.
#[tactic(auto, using(crate::proofs::WalkLemmas::repeated_step))]
fn repeated(alloc: Global, once: &[u8], times: u32) -> Result<Bytes, NoMemory>
    requires { length (concat (replicate times once.now)) < 2 ^ 30 }
    ensures { IfOk result (λ bytes. bytes ≡ concat (replicate times once.now)) }
{
    let mut made = Vec::new(alloc);
    for _ in 0..times {
        made.extend_from_slice(once)?;
    }
    Ok(Bytes::from_vec(made))
}
