ghost use Rattle.std.specs.Prelude.{◌≡◌, ◌↔◌, ◌≤◌, [], ◌∷◌, Some, IsSome, IfOk, length};
ghost use Rattle.xi_plain.specs.declared.ask.Ask.{Ask as AskValue};
ghost use Rattle.xi_plain.specs.Reply.{SaysLength};
ghost use Rattle.xi_plain.specs.Room.{asked_from};
ghost use Rattle.plugin_session.specs.declared.noted.Noted.{Noted as NotedValue};
ghost use Rattle.plugin_session.specs.declared.noted.Noted.TheVariants.{Asked, Looked};
ghost use Rattle.plugin_session.specs.Call.{IsPluginAsk, IsAskServed, IsLookServed};
ghost use Rattle.plugin_session.specs.Noting.{KeepsUnlessRefused};
ghost use Rattle.plugin_session.specs.Turn.{TellsMore};

use crate::door::Door;
use std::alloc::Global;
use std::marker::Model;
use xi_plain::{Answer, Ask, List, NoMemory, Query, Reply, TryClone};

/// What went through a door.
#[derive(PartialEq, Eq, Drop)]
pub enum Noted {
    /// An ask, and its reply.
    Asked(Ask, Reply),
    /// A query, and its answer.
    Looked(Query, Answer),
}

// What was asked, with its reply, where there was memory for copies of both.
fn asked(alloc: Global, ask: Result<Ask, NoMemory>, reply: &Reply) -> Result<Noted, NoMemory>
    ensures { (made : AskValue) → IfOk ask (λ ask. ask ≡ made) → IfOk result (λ noted. noted ≡ Asked made reply.now) }
{
    let ask = ask?;
    Ok(Noted::Asked(ask, reply.copy(alloc)?))
}

// What was looked at, with its answer, where there was memory for a copy of it.
fn looked(alloc: Global, query: Query, answer: &Answer) -> Result<Noted, NoMemory>
    ensures { IfOk result (λ noted. noted ≡ Looked query answer.now) }
{
    Ok(Noted::Looked(query, answer.copy(alloc)?))
}

/// A door that keeps and tells what goes through the one inside it. Where it is refused memory to keep something, it counts that, and tells
/// nothing from then on.
#[derive(Drop)]
pub struct NotedDoor<D> {
    door: D,
    kept: List<Noted>,
    refused: u64,
    alloc: Global,
}

impl<D> Model for NotedDoor<D> {
    ghost use Rattle.std.specs.Prelude.{◌==◌, Some, None, if◌then◌else◌};
    ghost use Rattle.plugin_session.specs.Noting.{Noting};

    ghost Value = { Noting D };

    ghost view = { λ d. record {
      door = d.door;
      kept = if d.refused == 0 then Some d.kept else None;
      refused = d.refused;
    } };
}

impl<D: Door> NotedDoor<D> {
    /// The door, of which nothing is kept yet.
    pub fn new(alloc: Global, door: D) -> NotedDoor<D>
        ensures { result ≡ record { door = door; kept = Some []; refused = 0 } }
    {
        NotedDoor {
            door,
            kept: List::new(alloc),
            refused: 0,
            alloc,
        }
    }

    /// How often it was refused memory to keep what went through. It tells that while this is 0.
    pub fn refused(&self) -> u64
        ensures count { result ≡ self.now.refused }
        ensures tells { (result ≡ 0) ↔ IsSome self.now.kept }
    {
        self.refused
    }

    /// The inner door, and what went through it, where all was kept.
    pub fn into_door(self) -> (D, Option<List<Noted>>)
        ensures { result ≡ (self.door, self.kept) }
    {
        let NotedDoor {
            door,
            kept,
            refused,
            alloc: _,
        } = self;
        if refused == 0 {
            (door, Some(kept))
        } else {
            (door, None)
        }
    }

    // Keeps what went through, where it tells all before and there is memory for it.
    fn note(&mut self, one: Result<Noted, NoMemory>)
        ensures door { self.new.door ≡ self.old.door }
        ensures keeps { (noted : NotedValue) → IfOk one (λ one. one ≡ noted)
            → KeepsUnlessRefused self.old self.new noted }
        ensures told { (noted : NotedValue) → IfOk one (λ one. one ≡ noted)
            → TellsMore self.old.kept self.new.kept (noted ∷ []) }
    {
        if self.refused > 0 {
            return;
        }
        let pushed = match one {
            Ok(one) => self.kept.push(one),
            Err(NoMemory) => Err(NoMemory),
        };
        if pushed.is_err() {
            self.refused = 1;
        }
    }
}

impl<D: Door> Door for NotedDoor<D> {
    ghost caller = { λ d. D.caller d.door };

    ghost journal = { λ d. D.journal d.door };

    ghost legal = { λ d. D.legal d.door };

    ghost serves = { λ d. D.serves d.door };

    ghost answers = { λ d. D.answers d.door };

    ghost later = { λ d e. D.later d.door e.door };

    ghost ready = { λ d. D.ready d.door };

    ghost told = { λ d. d.kept };

    fn enter(&mut self, ask: Ask) -> Reply
        requires ready { D.ready self.old.door }
        requires of_plugin { IsPluginAsk ask }
        ensures ready { D.ready self.new.door }
        ensures caller { D.caller self.new.door ≡ D.caller self.old.door }
        ensures later { D.later self.old.door self.new.door }
        ensures served { IsAskServed (D.serves self.old.door) (D.caller self.old.door) ask result
            (D.journal self.old.door) (D.journal self.new.door) }
        ensures told { TellsMore self.old.kept self.new.kept (Asked ask result ∷ []) }
        ensures keeps { KeepsUnlessRefused self.old self.new (Asked ask result) }
    {
        let copy = ask.copy(self.alloc);
        let reply = self.door.enter(ask);
        self.note(asked(self.alloc, copy, &reply));
        reply
    }

    fn look(&mut self, query: Query) -> Answer
        requires ready { D.ready self.old.door }
        requires place { asked_from query ≤ length (D.journal self.old.door) }
        ensures ready { D.ready self.new.door }
        ensures caller { D.caller self.new.door ≡ D.caller self.old.door }
        ensures later { D.later self.old.door self.new.door }
        ensures answered { IsLookServed (D.answers self.old.door) (D.caller self.old.door) query result
            (D.journal self.old.door) (D.journal self.new.door) }
        ensures length { SaysLength (length (D.journal self.new.door)) result }
        ensures told { TellsMore self.old.kept self.new.kept (Looked query result ∷ []) }
        ensures keeps { KeepsUnlessRefused self.old self.new (Looked query result) }
    {
        let answer = self.door.look(query);
        self.note(looked(self.alloc, query, &answer));
        answer
    }

    ghost same = { λ a. D.same a.door };

    ghost onward = { λ a b c. D.onward a.door b.door c.door };

    ghost prefix = { λ a b. D.prefix a.door b.door };

    ghost serves_on = { λ a b. D.serves_on a.door b.door };

    ghost answers_on = { λ a b. D.answers_on a.door b.door };

    ghost legal_now = { λ a. D.legal_now a.door };

    ghost legal_on = { λ a b. D.legal_on a.door b.door };

    ghost one_entry = { λ a. D.one_entry a.door };
}
