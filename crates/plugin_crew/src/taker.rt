ghost use Rattle.xi_plain.specs.Journal.{front_entries};
ghost use Rattle.plugin_crew.specs.Taker.{HasTaken, IsTakenBy};

use crate::took::Took;
use xi_plain::Bytes;

/// Where lines of the front end go in. To a contract it is the journal as far as it has seen it. Each line may make one more entry of the front
/// end.
pub trait LineTaker {
    ghost use Rattle.std.specs.Prelude.{ℕ, List};
    ghost use Rattle.xi_plain.specs.declared.entry.Entry.{Entry};
    ghost use Rattle.xi_plain.specs.declared.ask.Ask.{Ask};
    ghost use Rattle.xi_plain.specs.declared.reply.Reply.{Reply};
    ghost use Rattle.xi_plain.specs.Room.{Begins};

    /// The journal, as far as it has seen it. All entries of the front end are in it.
    ghost seen: { Self → List Entry };

    /// What an ask does: the journal before, the caller, its ask and the reply, and the journal after.
    ghost serves: { Self → List Entry → ℕ → Ask → Reply → List Entry → Type 0 };

    /// That the second is the first after some lines.
    ghost later: { Self → Self → Type 0 };

    /// That it may take lines. It is so from the start, and no line changes it.
    ghost ready: { Self → Type 0 };

    /// Enters this line of the front end, with or without its LF. It may wait.
    fn take(&mut self, line: Bytes) -> Took
        requires ready { ready self.old }
        ensures ready { ready self.new }
        ensures later { later self.old self.new }
        ensures took { HasTaken (front_entries (seen self.old)) result (front_entries (seen self.new)) }
        ensures served { IsTakenBy (serves self.old) line (seen self.old) result (seen self.new) };

    ghost same: { (a : Self) → later a a };

    ghost onward: { (a b c : Self) → later a b → later b c → later a c };

    /// What the former has seen is the beginning of what the latter has.
    ghost prefix: { (a b : Self) → later a b → Begins (seen a) (seen b) };

    ghost serves_on: { (a b : Self) (before : List Entry) (caller : ℕ) (ask : Ask) (reply : Reply) (after : List Entry)
        → later a b → serves b before caller ask reply after → serves a before caller ask reply after };
}
