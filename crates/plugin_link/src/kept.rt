//! Bytes that were pulled and not given yet.

ghost use Rattle.std.specs.Prelude.{◌≡◌, ◌+◌, ◌<◌, ◌≤◌, [], length, drop, vec_len};
ghost use Rattle.plugin_link.specs.Link.{link_told};
ghost use Rattle.plugin_link.specs.Pulling.{Fetches};

use crate::link::Link;
use crate::link_end::LinkEnd;
use outside::Pulled;
use std::alloc::Global;
use std::marker::Model;

/// How many bytes one pull may give.
const MOST_PULLED: usize = 4096;

/// What was pulled and not given yet: a buffer, and the place in it up to which it was given.
#[derive(Drop)]
pub(crate) struct Kept {
    bytes: Vec<u8>,
    at: usize,
}

impl Model for Kept {
    ghost use Rattle.std.specs.Prelude.{ℕ, ◌≤◌, List, drop, vec_len};

    ghost Value = { List ℕ };

    ghost view = { λ k. drop k.at k.bytes.items };

    ghost invariant = { λ k. k.at ≤ vec_len k.bytes };
}

impl Kept {
    /// Nothing, which takes no memory.
    pub(crate) fn new(alloc: Global) -> Kept
        ensures { result ≡ [] }
    {
        Kept {
            bytes: Vec::new(alloc),
            at: 0,
        }
    }

    pub(crate) fn bytes(&self) -> &[u8]
        ensures { result.now ≡ self.now }
    {
        &self.bytes[self.at..]
    }

    /// Goes past the first bytes, which were given.
    pub(crate) fn pass(&mut self, count: usize)
        requires { count ≤ length self.old }
        ensures { self.new ≡ drop count self.old }
    {
        self.at += count;
    }

    /// Pulls once, behind what is kept. What was given makes room first, so the buffer never holds more than a line and a piece.
    pub(crate) fn pull<L: Link>(&mut self, link: &mut L) -> Result<(), LinkEnd>
        ensures { Fetches (link_told L.left L.held L.faults link.old) (link_told L.left L.held L.faults link.new)
            self.old self.new result }
    {
        drop_front(&mut self.bytes, self.at);
        self.at = 0;
        pull_behind(link, &mut self.bytes)
    }
}

/// Takes the first bytes off. The others are moved.
fn drop_front(bytes: &mut Vec<u8>, count: usize)
    requires { count ≤ vec_len bytes.old }
    ensures { bytes.new.items ≡ drop count bytes.old.items }
{
    if count > 0 {
        let len = bytes.len();
        bytes.as_mut_slice().copy_within(count..len, 0);
        bytes.truncate(len - count);
    }
}

/// Pulls once, into room behind these bytes.
fn pull_behind<L: Link>(link: &mut L, bytes: &mut Vec<u8>) -> Result<(), LinkEnd>
    ensures { Fetches (link_told L.left L.held L.faults link.old) (link_told L.left L.held L.faults link.new)
        bytes.old.items bytes.new.items result }
{
    let len = bytes.len();
    if bytes.resize(len + MOST_PULLED, 0).is_err() {
        return Err(LinkEnd::NoMemory);
    }
    match link.pull(&mut bytes[len..]) {
        Pulled::Got(count) => {
            bytes.truncate(len + count);
            Ok(())
        }
        Pulled::End => {
            bytes.truncate(len);
            Err(LinkEnd::Ended)
        }
        Pulled::Failed => {
            bytes.truncate(len);
            Err(LinkEnd::PullFailed)
        }
    }
}
