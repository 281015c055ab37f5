ghost use Rattle.std.specs.Prelude.{◌≡◌, ℕ, ◌^◌, ◌<◌, ◌≤◌, ◌++◌, Some, min, length, take, drop, [], IfSome};
ghost use Rattle.outside.specs.Source.{Gives, IsPiece, pulled, filled, failures_after};
ghost use Rattle.outside.specs.MemSource.{got};
ghost use Rattle.outside.specs.Faults.{Rose};

use crate::source::{Pulled, Source};
use std::marker::Model;

/// A source over bytes in memory that never fails: the bytes that are left.
#[derive(Drop)]
pub struct CalmSource {
    bytes: Vec<u8>,
    at: usize,
}

impl Model for CalmSource {
    ghost use Rattle.std.specs.Prelude.{ℕ, ◌≤◌, List, drop, vec_len};

    ghost Value = { List ℕ };

    ghost view = { λ s. drop s.at s.bytes.items };

    ghost invariant = { λ s. s.at ≤ vec_len s.bytes };
}

impl CalmSource {
    pub fn new(bytes: Vec<u8>) -> Self
        ensures { result ≡ bytes.items }
    {
        CalmSource { bytes, at: 0 }
    }

    /// The bytes that are left.
    pub fn left(&self) -> &[u8]
        ensures { result.now ≡ self.now }
    {
        &self.bytes[self.at..]
    }
}

impl Source for CalmSource {
    ghost left = { λ s. Some s };

    ghost faults = { λ _. 0 };

    ghost failures = { λ _. 0 };

    /// Gives as much as there is room for.
    fn read(&mut self, buf: &mut [u8]) -> Pulled
        requires { 0 < length buf.old }
        ensures answer { result ≡ got (min (length buf.old) (length self.old)) }
        ensures given { buf.new ≡ filled buf.old self.old (min (length buf.old) (length self.old)) }
        ensures after { self.new ≡ drop (length buf.old) self.old }
    {
        let count = copy_front(self.left(), buf);
        self.at += count;
        if count == 0 {
            Pulled::End
        } else {
            Pulled::Got(count)
        }
    }
}

/// Copies as many of the first bytes as there is room for, and says how many.
fn copy_front(from: &[u8], to: &mut [u8]) -> usize
    ensures count { result ≡ min (length to.old) (length from.now) }
    ensures copied { to.new ≡ filled to.old from.now result }
{
    let count = to.len().min(from.len());
    to[..count].copy_from_slice(&from[..count]);
    count
}
