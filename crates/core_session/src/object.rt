// The session as the object of a room.

use crate::session::Core;
use outside::{Shelf, Sink};
use xi_plain::{Answer, Ask, Object, Query, Reply};

impl<K: Sink, H: Shelf> Object for Core<K, H> {
    ghost use Rattle.core_session.specs.Core.{journal_of, terms_of};
    ghost use Rattle.core_session.specs.Answers.{Answers, Answers-length, Answers-on};
    ghost use Rattle.core_session.specs.Grown.{IsGrown};
    ghost use Rattle.core_session.specs.GrownLaws.{IsGrown-onward, IsGrown-prefix, IsGrown-same};
    ghost use Rattle.core_session.specs.Object.{legal_now, state_of};
    ghost use Rattle.core_session.specs.Serves.{FitsCaller, IsSessionJournal, Serves};
    ghost use Rattle.core_session.specs.ServesLaws.{FitsCaller-on, IsSessionJournal-on, Serves-on, Serves-one_entry, short_of};

    ghost journal = { λ c. journal_of c };

    ghost legal = { λ c log. ∥ IsSessionJournal (terms_of c) log ∥₁ };

    ghost fits = { λ c caller ask. FitsCaller (terms_of c).plugins caller ask };

    ghost serves = { λ c before caller ask reply after. Serves (terms_of c) before caller ask reply after };

    ghost answers = { λ c log caller query answer. Answers (terms_of c) log query answer };

    ghost grown = { λ a b. IsGrown (state_of K.held K.faults K.failures H.files H.faults a) (state_of K.held K.faults K.failures H.files H.faults b) };

    ghost same = { λ a. IsGrown-same (state_of K.held K.faults K.failures H.files H.faults a) };

    ghost onward = { λ a b c first then. IsGrown-onward (state_of K.held K.faults K.failures H.files H.faults a)
        (state_of K.held K.faults K.failures H.files H.faults b) (state_of K.held K.faults K.failures H.files H.faults c) first then };

    ghost prefix = { λ a b grown. IsGrown-prefix (state_of K.held K.faults K.failures H.files H.faults a)
        (state_of K.held K.faults K.failures H.files H.faults b) grown };

    ghost fits_on = { λ a b caller ask grown fits. FitsCaller-on (terms_of a) (terms_of b) caller ask grown.terms fits };

    ghost serves_on = { λ a b before caller ask reply after grown served. Serves-on (terms_of a) (terms_of b) before caller ask reply after
        grown.terms served };

    ghost answers_on = { λ a b log caller query answer grown answered. Answers-on (terms_of a) (terms_of b) log query answer grown.terms answered };

    ghost legal_now = { λ a. legal_now a };

    ghost legal_on = { λ a b log grown lawful. IsSessionJournal-on (terms_of a) (terms_of b) log grown.terms lawful };

    ghost one_entry = { λ a before caller ask reply after served. Serves-one_entry (terms_of a) before caller ask reply after served };

    ghost says_length = { λ a log caller query answer answered. Answers-length (terms_of a) log query answer answered };

    ghost short = { λ a. short_of a.journal.items a.journal.len a.journal.cap a.journal.ok a.journal.small };

    fn serve(&mut self, caller: u32, ask: Ask) -> Reply {
        match ask {
            Ask::FrontLine(line) => self.front_line(line.as_slice()),
            Ask::PluginLine(line) => self.plugin_line(caller, line.as_slice()),
            Ask::PluginEnd => self.plugin_end(caller),
            Ask::CloseDown => self.close_down(),
        }
    }

    fn answer(&self, caller: u32, query: Query) -> Answer {
        match query {
            Query::Notices { from } => self.notices(caller, from),
        }
    }
}
