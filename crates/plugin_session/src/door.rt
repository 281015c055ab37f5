ghost use Rattle.std.specs.Prelude.{◌≡◌, [], ◌∷◌, ◌≤◌, length};
ghost use Rattle.xi_plain.specs.Reply.{SaysLength};
ghost use Rattle.xi_plain.specs.Room.{asked_from};
ghost use Rattle.plugin_session.specs.declared.noted.Noted.TheVariants.{Asked, Looked};
ghost use Rattle.plugin_session.specs.Turn.{TellsMore};
ghost use Rattle.plugin_session.specs.Call.{IsPluginAsk, IsAskServed, IsLookServed};

use xi_plain::{Answer, Ask, Query, Reply};

/// Where a plugin's lines go in, and what happened is seen. To a contract it is its caller and a journal, which may grow by others between two
/// calls.
pub trait Door {
    ghost use Rattle.std.specs.Prelude.{ℕ, List, Option};
    ghost use Rattle.xi_plain.specs.declared.entry.Entry.{Entry};
    ghost use Rattle.xi_plain.specs.declared.ask.Ask.{Ask};
    ghost use Rattle.xi_plain.specs.declared.ask.Query.{Query};
    ghost use Rattle.xi_plain.specs.declared.reply.Reply.{Reply};
    ghost use Rattle.xi_plain.specs.declared.reply.Answer.{Answer};
    ghost use Rattle.xi_plain.specs.Reply.{has_entry};
    ghost use Rattle.xi_plain.specs.Room.{Begins, AddsEntryIf};
    ghost use Rattle.plugin_session.specs.declared.noted.Noted.{Noted};

    /// Who asks here.
    ghost caller: { Self → ℕ };

    /// The entries that were seen from here, from the first.
    ghost journal: { Self → List Entry };

    /// Which journals can be.
    ghost legal: { Self → List Entry → Type 0 };

    /// What an ask does: the journal before, the caller, its ask and the reply, and the journal after.
    ghost serves: { Self → List Entry → ℕ → Ask → Reply → List Entry → Type 0 };

    /// What a query is answered, by the journal.
    ghost answers: { Self → List Entry → ℕ → Query → Answer → Type 0 };

    /// That the second is the first after some calls.
    ghost later: { Self → Self → Type 0 };

    /// That its caller may ask what plugins ask. It is so from the start, and no call changes it.
    ghost ready: { Self → Type 0 };

    /// What went through the door so far, where it tells it. It may stop telling it, and never starts again.
    ghost told: { Self → Option (List Noted) };

    /// Asks what a plugin may ask. It may wait.
    fn enter(&mut self, ask: Ask) -> Reply
        requires ready { ready self.old }
        requires of_plugin { IsPluginAsk ask }
        ensures ready { ready self.new }
        ensures caller { caller self.new ≡ caller self.old }
        ensures later { later self.old self.new }
        ensures served { IsAskServed (serves self.old) (caller self.old) ask result (journal self.old) (journal self.new) }
        ensures told { TellsMore (told self.old) (told self.new) (Asked ask result ∷ []) };

    /// Looks at the journal. It may wait.
    fn look(&mut self, query: Query) -> Answer
        requires ready { ready self.old }
        requires place { asked_from query ≤ length (journal self.old) }
        ensures ready { ready self.new }
        ensures caller { caller self.new ≡ caller self.old }
        ensures later { later self.old self.new }
        ensures answered { IsLookServed (answers self.old) (caller self.old) query result (journal self.old) (journal self.new) }
        ensures length { SaysLength (length (journal self.new)) result }
        ensures told { TellsMore (told self.old) (told self.new) (Looked query result ∷ []) };

    ghost same: { (a : Self) → later a a };

    ghost onward: { (a b c : Self) → later a b → later b c → later a c };

    /// The journal of the former is the beginning of the latter's.
    ghost prefix: { (a b : Self) → later a b → Begins (journal a) (journal b) };

    ghost serves_on: { (a b : Self) (before : List Entry) (caller : ℕ) (ask : Ask) (reply : Reply) (after : List Entry)
        → later a b → serves b before caller ask reply after → serves a before caller ask reply after };

    ghost answers_on: { (a b : Self) (log : List Entry) (caller : ℕ) (query : Query) (answer : Answer)
        → later a b → answers b log caller query answer → answers a log caller query answer };

    /// What was seen from a door where its caller may ask is a journal that can be.
    ghost legal_now: { (a : Self) → ready a → legal a (journal a) };

    ghost legal_on: { (a b : Self) (log : List Entry) → later a b → legal b log → legal a log };

    /// An ask makes one entry, of its caller, exactly where the reply says so, and otherwise none.
    ghost one_entry: { (a : Self) (before : List Entry) (caller : ℕ) (ask : Ask) (reply : Reply) (after : List Entry)
        → serves a before caller ask reply after → AddsEntryIf (has_entry reply) before caller after };
}
