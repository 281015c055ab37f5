ghost use Rattle.std.specs.Prelude.{◌≡◌, ℕ, ◌<◌, slice_index_or, slice_set, length};

use std::array;
use std::marker::Model;

/// Where each of `N` names starts and ends in its text.
#[derive(Drop)]
pub(crate) struct Places<const N: usize> {
    spans: [(usize, usize); N],
}

impl<const N: usize> Model for Places<N> {
    ghost use Rattle.std.specs.Prelude.{ℕ, ◌≡◌, List, length};

    ghost Value = { List (ℕ × ℕ) };

    ghost view = { λ s. s.spans };

    ghost invariant = { λ s. length s.spans ≡ N };
}

impl<const N: usize> Places<N> {
    pub(crate) fn new() -> Self
        ensures { length result ≡ N }
    {
        Places {
            spans: array::from_fn(|_| (0, 0)),
        }
    }

    pub(crate) fn of(spans: [(usize, usize); N]) -> Self
        ensures { result ≡ spans.entry }
    {
        Places { spans }
    }

    pub(crate) fn len(&self) -> usize
        ensures { result ≡ N }
    {
        self.spans.len()
    }

    pub(crate) fn set(&mut self, row: usize, span: (usize, usize))
        requires { row < N }
        ensures set { self.new ≡ slice_set self.old row span }
        ensures len { length self.old ≡ N }
    {
        self.spans[row] = span;
    }

    pub(crate) fn get(&self, row: usize) -> (usize, usize)
        requires { row < N }
        ensures { result ≡ slice_index_or self.now row (0, 0) }
    {
        self.spans[row]
    }
}
