ghost use Rattle.std.specs.Prelude.{◌≡◌, [], List, length};
ghost use Rattle.std.specs.Bool.{MatchBool};
ghost use Rattle.xi_plain.specs.declared.ask.Ask.TheVariants.{CloseDown};
ghost use Rattle.xi_plain.specs.Journal.{front_entries};
ghost use Rattle.plugin_crew.specs.Member.{AreNew, begun_of};
ghost use Rattle.plugin_crew.specs.Alone.{IsClosed, IsRunning, MayServe};
ghost use Rattle.plugin_crew.specs.Taker.{HasTaken, IsEnteredBy, adds_entry};

use crate::crew::Crew;
use crate::taker::LineTaker;
use crate::took::{Took, took_of};
use plugin_session::Plugin;
use std::alloc::Global;
use std::snapshot::Snapshot;
use xi_plain::{Ask, Bytes, Object};

/// An object with a crew, which serves plugins in turns on the calling thread. To a contract it is the object, now and when the run began,
/// and the crew.
#[derive(Drop)]
pub struct AloneFront<O, P> {
    pub(crate) object: O,
    pub(crate) first: Snapshot<O>,
    pub(crate) crew: Crew<P>,
    alloc: Global,
}

impl<O: Object, P: Plugin> AloneFront<O, P> {
    /// Begins a run: each plugin has its first turn.
    pub fn start(alloc: Global, object: O, crew: Crew<P>) -> AloneFront<O, P>
        requires may { MayServe O.fits O.serves (length crew.members.items) object }
        requires empty { O.journal object ≡ [] }
        requires new { (plugins : List P) × AreNew 1 plugins crew.members.items }
        ensures first { result.first.value ≡ object }
        ensures begun { begun_of result.crew.members.items ≡ begun_of crew.members.items }
        ensures none { front_entries (O.journal result.object) ≡ [] }
        ensures running { IsRunning O.journal O.serves O.answers O.grown P.told O.fits result.first.value result.object
            result.crew.members.items }
    {
        let first = Snapshot::of(&object);
        let mut object = object;
        let mut crew = crew;
        crew.round(alloc, &mut object);
        AloneFront {
            object,
            first,
            crew,
            alloc,
        }
    }

    /// Enters the closing entry, and gives each plugin whose session goes on its last turn. Where no entry was made, there are no turns.
    pub fn close(&mut self) -> Took
        requires running { IsRunning O.journal O.serves O.answers O.grown P.told O.fits self.old.first.value self.old.object
            self.old.crew.members.items }
        ensures first { self.new.first ≡ self.old.first }
        ensures begun { begun_of self.new.crew.members.items ≡ begun_of self.old.crew.members.items }
        ensures closed { MatchBool (adds_entry result)
            (IsClosed O.journal O.serves O.answers O.grown P.told self.new.first.value self.new.object self.new.crew.members.items
            (front_entries (O.journal self.old.object)))
            (IsRunning O.journal O.serves O.answers O.grown P.told O.fits self.new.first.value self.new.object
            self.new.crew.members.items) }
        ensures took { HasTaken (front_entries (O.journal self.old.object)) result (front_entries (O.journal self.new.object)) }
        ensures served { IsEnteredBy (O.serves self.old.first.value) CloseDown (O.journal self.old.object) result
            (O.journal self.new.object) }
    {
        let reply = self.object.serve(0, Ask::CloseDown);
        let took = took_of(&reply);
        if took.adds_entry() {
            self.crew.round(self.alloc, &mut self.object);
        }
        took
    }

    /// The object, and the crew.
    pub fn into_parts(self) -> (O, Crew<P>)
        ensures { result ≡ (self.object, self.crew) }
    {
        let AloneFront {
            object,
            first: _,
            crew,
            alloc: _,
        } = self;
        (object, crew)
    }
}

impl<O: Object, P: Plugin> LineTaker for AloneFront<O, P> {
    ghost use Rattle.std.specs.Prelude.{◌≡◌, refl};
    ghost use Rattle.std.proofs.Common.{◌∙◌, subst};
    ghost use Rattle.plugin_crew.specs.Alone.{IsRunning};
    ghost use Rattle.plugin_crew.specs.Member.{begun_of};

    ghost seen = { λ f. O.journal f.object };

    ghost serves = { λ f. O.serves f.first.value };

    ghost later = { λ f g. O.grown f.object g.object × (g.first.value ≡ f.first.value)
        × (begun_of g.crew.members.items ≡ begun_of f.crew.members.items) };

    ghost ready = { λ f. IsRunning O.journal O.serves O.answers O.grown P.told O.fits f.first.value f.object f.crew.members.items };

    fn take(&mut self, line: Bytes) -> Took {
        let reply = self.object.serve(0, Ask::FrontLine(line));
        let took = took_of(&reply);
        if took.is_sent() {
            self.crew.round(self.alloc, &mut self.object);
        }
        took
    }

    ghost same = { λ a. (O.same a.object, refl, refl) };

    ghost onward = { λ a b c first then. (O.onward a.object b.object c.object first.0 then.0, then.1 ∙ first.1, then.2 ∙ first.2) };

    ghost prefix = { λ a b later. O.prefix a.object b.object later.0 };

    ghost serves_on = { λ a b before caller ask reply after later served. subst (λ o. O.serves o before caller ask reply after)
        later.1 served };
}
