ghost use Rattle.std.specs.Prelude.{◌≤◌, length};
ghost use Rattle.xi_plain.specs.Room.{asked_from};

use crate::ask::{Ask, Query};
use crate::reply::{Answer, Reply};

/// What keeps a journal, and serves callers one after the other. To a contract it is its journal, and what it does and answers is said
/// over journals alone, so that another who has only seen a beginning of the journal can say it too.
pub trait Object {
    ghost use Rattle.std.specs.Prelude.{ℕ, ◌^◌, ◌<◌, List, length};
    ghost use Rattle.xi_plain.specs.declared.entry.Entry.{Entry};
    ghost use Rattle.xi_plain.specs.declared.ask.Ask.{Ask};
    ghost use Rattle.xi_plain.specs.declared.ask.Query.{Query};
    ghost use Rattle.xi_plain.specs.declared.reply.Reply.{Reply};
    ghost use Rattle.xi_plain.specs.declared.reply.Answer.{Answer};
    ghost use Rattle.xi_plain.specs.Reply.{has_entry, SaysLength};
    ghost use Rattle.xi_plain.specs.Room.{Begins, AddsEntryIf};

    /// The entries that it made, from the first.
    ghost journal: { Self → List Entry };

    /// Which journals can be.
    ghost legal: { Self → List Entry → Type 0 };

    /// Which asks a caller may make.
    ghost fits: { Self → ℕ → Ask → Type 0 };

    /// What one call does: the journal before, the caller, its ask and the reply, and the journal after.
    ghost serves: { Self → List Entry → ℕ → Ask → Reply → List Entry → Type 0 };

    /// What a query is answered, by the journal.
    ghost answers: { Self → List Entry → ℕ → Query → Answer → Type 0 };

    /// That the second is the first after some calls.
    ghost grown: { Self → Self → Type 0 };

    /// Serves an ask.
    fn serve(&mut self, caller: u32, ask: Ask) -> Reply
        requires { fits self.old caller ask }
        ensures grown { grown self.old self.new }
        ensures served { serves self.old (journal self.old) caller ask result (journal self.new) };

    /// Answers a query, which makes no entry.
    fn answer(&self, caller: u32, query: Query) -> Answer
        requires { asked_from query ≤ length (journal self.now) }
        ensures { answers self.now (journal self.now) caller query result };

    ghost same: { (a : Self) → grown a a };

    ghost onward: { (a b c : Self) → grown a b → grown b c → grown a c };

    /// The journal of the former is the beginning of the latter's.
    ghost prefix: { (a b : Self) → grown a b → Begins (journal a) (journal b) };

    ghost fits_on: { (a b : Self) (caller : ℕ) (ask : Ask) → grown a b → fits a caller ask → fits b caller ask };

    ghost serves_on: { (a b : Self) (before : List Entry) (caller : ℕ) (ask : Ask) (reply : Reply) (after : List Entry)
        → grown a b → serves b before caller ask reply after → serves a before caller ask reply after };

    ghost answers_on: { (a b : Self) (log : List Entry) (caller : ℕ) (query : Query) (answer : Answer)
        → grown a b → answers b log caller query answer → answers a log caller query answer };

    ghost legal_now: { (a : Self) → legal a (journal a) };

    ghost legal_on: { (a b : Self) (log : List Entry) → grown a b → legal b log → legal a log };

    /// A call makes one entry, of its caller, exactly where the reply says so, and otherwise none.
    ghost one_entry: { (a : Self) (before : List Entry) (caller : ℕ) (ask : Ask) (reply : Reply) (after : List Entry)
        → serves a before caller ask reply after → AddsEntryIf (has_entry reply) before caller after };

    /// An answer says how long the journal is that it is given by, unless memory was wanting.
    ghost says_length: { (a : Self) (log : List Entry) (caller : ℕ) (query : Query) (answer : Answer)
        → answers a log caller query answer → SaysLength (length log) answer };

    ghost short: { (a : Self) → length (journal a) < 2 ^ 63 };
}
