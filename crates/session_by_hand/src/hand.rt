ghost use Rattle.std.specs.Prelude.{◌≡◌, Some, IfOk, drop, length, min};
ghost use Rattle.xi_plain.specs.declared.ask.Query.TheVariants as Query;
ghost use Rattle.core_session.specs.Answers.{Answers};
ghost use Rattle.core_session.specs.Core.{journal_of, sink_of, terms_of};
ghost use Rattle.core_session.specs.Serves.{FitsCaller};
ghost use Rattle.session_by_hand.specs.Call.{IsOfOne, call_view};
ghost use Rattle.session_by_hand.specs.Comes.{IsFresh, Says, SaysReply};

use crate::call::Call;
use crate::said::{answer_said, reply_said};
use core_session::Core;
use outside::{CalmShelf, MemSink};
use plain_text::{Bytes, List, NoMemory};
use std::alloc::Global;
use xi_plain::{Answer, Ask, Object};

/// The most characters that may be inserted into a document.
const TEXT_LIMIT: u64 = 1 << 40;

/// The most bytes that the sink takes in one call.
const GREATEST: usize = 1 << 20;

/// A session in memory, and how many plugins it has.
#[derive(Drop)]
pub struct Hand {
    pub plugins: u32,
    pub core: Core<MemSink, CalmShelf>,
    ghost same: { (terms_of core).plugins ≡ plugins },
}

/// A call that was made: the session after it, and what is printed of it.
#[derive(Drop)]
pub struct Made {
    pub hand: Hand,
    pub said: Bytes,
}

impl Hand {
    /// A session with so many plugins and these files.
    pub fn make(alloc: Global, plugins: u32, shelf: CalmShelf) -> Result<Hand, NoMemory>
        ensures plugins { IfOk result (λ hand. hand.plugins ≡ plugins) }
        ensures first { IfOk result (λ hand. IsFresh plugins shelf hand.core) }
    {
        let sink = MemSink::new(alloc, GREATEST, Vec::new(alloc));
        match Core::make(alloc, sink, shelf, plugins, TEXT_LIMIT) {
            Ok(core) => Ok(Hand { plugins, core }),
            Err(_) => Err(NoMemory),
        }
    }

    /// Makes a call.
    pub fn play(self, alloc: Global, call: Call<'_>) -> Result<Made, NoMemory>
        requires { IsOfOne self.plugins (call_view call) }
        ensures plugins { IfOk result (λ made. made.hand.plugins ≡ self.plugins) }
        ensures says { IfOk result (λ made. ∥ Says self.core made.hand.core (call_view call.entry) made.said ∥₁) }
    {
        match call {
            Call::Front(line) => self.ask(alloc, 0, Ask::FrontLine(copied(alloc, line)?)),
            Call::Plugin(caller, line) => {
                self.ask(alloc, caller, Ask::PluginLine(copied(alloc, line)?))
            }
            Call::Ended(caller) => self.ask(alloc, caller, Ask::PluginEnd),
            Call::Close => self.ask(alloc, 0, Ask::CloseDown),
            Call::Look(caller, from) => {
                let said = answer_said(alloc, &self.seen(caller, from))?;
                Ok(Made { hand: self, said })
            }
        }
    }

    /// Asks the session.
    fn ask(self, alloc: Global, caller: u32, ask: Ask) -> Result<Made, NoMemory>
        requires { FitsCaller self.plugins caller ask }
        ensures plugins { IfOk result (λ made. made.hand.plugins ≡ self.plugins) }
        ensures says { IfOk result (λ made. ∥ SaysReply self.core made.hand.core caller ask made.said ∥₁) }
    {
        let Hand { plugins, core } = self;
        let mut core = core;
        let before = written(&core)?.len();
        let reply = core.serve(caller, ask);
        let said = reply_said(alloc, &reply, behind(before, written(&core)?))?;
        let hand = Hand { plugins, core };
        Ok(Made { hand, said })
    }

    /// What a plugin sees from the entry at this place on, or from the journal's end.
    fn seen(&self, caller: u32, from: u64) -> Answer
        ensures { Answers (terms_of self.now.core) (journal_of self.now.core)
            (Query.Notices (min from (length (journal_of self.now.core)))) result }
    {
        self.core.notices(caller, from.min(self.core.len()))
    }
}

fn copied(alloc: Global, line: &[u8]) -> Result<Bytes, NoMemory>
    ensures { IfOk result (λ bytes. bytes ≡ line.now) }
{
    Ok(List::from_vec(Vec::from_slice(alloc, line)?))
}

/// What the session's sink holds; after want of memory it tells nothing.
fn written(core: &Core<MemSink, CalmShelf>) -> Result<&[u8], NoMemory>
    ensures { IfOk result (λ bytes. (sink_of core.now).held ≡ Some bytes.now) }
{
    core.sink().bytes().ok_or(NoMemory)
}

fn behind(place: usize, bytes: &[u8]) -> &[u8]
    ensures { result.now ≡ drop place bytes.now }
{
    if place < bytes.len() {
        &bytes[place..]
    } else {
        &[]
    }
}
