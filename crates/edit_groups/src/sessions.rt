// The sessions of the plugins of a document.
ghost use Rattle.std.specs.Prelude.{◌≡◌, ◌≤◌, ◌==◌, [], ◌∷◌, length, replicate, IfOk, Some, None};
ghost use Rattle.edit_groups.specs.Sessions.{acknowledged_by, least_acknowledged, session_of, with_session};

use plain_text::NoMemory;
use std::alloc::Global;
use std::marker::Model;

/// For each plugin, in order, the revision that its session has acknowledged, or `None` where that has ended.
#[derive(Drop)]
pub struct Sessions {
    each: Vec<Option<u64>>,
}

impl Model for Sessions {
    ghost use Rattle.std.specs.Prelude.{ℕ, List, Option};

    ghost Value = { List (Option ℕ) };

    ghost view = { λ sessions. sessions.each.items };
}

impl Sessions {
    /// So many sessions, all open, which have acknowledged the revision 0.
    pub fn open(alloc: Global, plugins: u32) -> Result<Sessions, NoMemory>
        ensures { IfOk result (λ made. made ≡ replicate plugins (Some 0)) }
    {
        let count = plugins as usize;
        Ok(Sessions {
            each: vec![in alloc; Some(0); count]?,
        })
    }

    /// A second list of the same, in O(n) for n of them.
    pub fn copy(&self, alloc: Global) -> Result<Sessions, NoMemory>
        ensures { IfOk result (λ made. made ≡ self.now) }
    {
        Ok(Sessions {
            each: Vec::from_slice(alloc, &self.each)?,
        })
    }

    /// Whether there is no plugin, and so none that has a session.
    pub fn is_empty(&self) -> bool
        ensures { result ≡ (length self.now == 0) }
    {
        self.each.as_slice().is_empty()
    }

    /// The least revision that an open session has acknowledged, or the head where none is open, in O(n).
    pub fn least(&self, head: u64) -> u64
        ensures { result ≡ least_acknowledged head self.now }
    {
        let mut least = head;
        for session in &self.each {
            least = lesser(*session, least);
        }
        least
    }

    /// The sessions after that of this caller acknowledged a revision.
    pub fn acknowledged(&self, alloc: Global, caller: u32, rev: u64) -> Result<Sessions, NoMemory>
        requires { (1 ≤ caller) × (caller ≤ length self.now) }
        ensures { IfOk result (λ made. made
            ≡ with_session self.now caller (acknowledged_by rev (session_of self.now caller))) }
    {
        let place = caller as usize - 1;
        let mut each = Vec::from_slice(alloc, &self.each)?;
        each[place] = acknowledged_by(rev, self.each[place]);
        Ok(Sessions { each })
    }

    /// The sessions after that of this caller ended.
    pub fn ended(&self, alloc: Global, caller: u32) -> Result<Sessions, NoMemory>
        requires { (1 ≤ caller) × (caller ≤ length self.now) }
        ensures { IfOk result (λ made. made ≡ with_session self.now caller None) }
    {
        let place = caller as usize - 1;
        let mut each = Vec::from_slice(alloc, &self.each)?;
        each[place] = None;
        Ok(Sessions { each })
    }
}

// The session after it acknowledged a revision.
fn acknowledged_by(rev: u64, session: Option<u64>) -> Option<u64>
    ensures { result ≡ acknowledged_by rev session }
{
    match session {
        Some(last) => Some(last.max(rev)),
        None => None,
    }
}

// The lesser of what a session has acknowledged, where it is open, and this.
fn lesser(session: Option<u64>, other: u64) -> u64
    ensures { result ≡ least_acknowledged other (session ∷ []) }
{
    match session {
        Some(rev) => rev.min(other),
        None => other,
    }
}
