// What is put in place, and what is kept of two. These functions know nothing of what they hold, so to let it go is one step of their proof.
ghost use Rattle.std.specs.Prelude.{◌≡◌, IfErr, IfOk, unwrap_or};
ghost use Rattle.core_session.specs.InnerSession.{IsChosenBy};

use outside::Stored;
use plain_text::NoMemory;

/// Puts the next one in place, where there is one.
pub(crate) fn put_if<T: Drop>(place: &mut T, next: Option<T>)
    ensures { place.new ≡ unwrap_or next place.old }
{
    match next {
        Some(next) => *place = next,
        None => {}
    }
}

/// The first one where a file was written, and the second one where that failed; the other is let go.
pub(crate) fn by_answer<A: Drop>(answer: Stored, done: A, failed: A) -> Result<A, NoMemory>
    ensures chosen { IfOk result (IsChosenBy answer done failed) }
    ensures lack { IfErr result (λ _. answer ≡ Stored.NoMemory) }
{
    match answer {
        Stored::Done => Ok(done),
        Stored::Failed => Ok(failed),
        Stored::NoMemory => Err(NoMemory),
    }
}
