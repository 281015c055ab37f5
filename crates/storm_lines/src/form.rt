ghost use Rattle.std.specs.Prelude.{◌≡◌, codes};
ghost use Rattle.storm_lines.specs.Forms.{form_in, is_named, number_in, storm_form};

use case_lines::number_of;
use plain_text::Text;

/// The most lines of a storm.
const MOST_LINES: u64 = 1_000_000;

/// The run that words ask for.
#[derive(Clone, Copy)]
pub enum Form {
    /// A front end is served on one thread, and each plugin on one of its own.
    Threads,
    /// A front end and the plugins are served on one thread.
    Alone,
    /// A storm of so many lines, with this seed.
    Storm { count: u32, seed: u64 },
}

/// The run that the words ask for: none, `alone` or `storm N SEED`; `None` where they are no form.
pub fn form_of(words: &[Text]) -> Option<Form>
    ensures { result ≡ form_in words.now }
{
    match words {
        [] => Some(Form::Threads),
        [form] if is_named(form, b"alone") => Some(Form::Alone),
        [form, count, seed] if is_named(form, b"storm") => storm_form(
            number_in(count),
            number_in(seed),
        ),
        _ => None,
    }
}

/// A storm of these numbers, where it has no more lines than it may.
fn storm_form(count: Option<u64>, seed: Option<u64>) -> Option<Form>
    ensures { result ≡ storm_form count seed }
{
    let (count, seed) = (count?, seed?);
    if count <= MOST_LINES {
        Some(Form::Storm {
            count: count as u32,
            seed,
        })
    } else {
        None
    }
}

fn is_named(word: &Text, name: &[u8]) -> bool
    ensures { result ≡ is_named word.now name.now }
{
    word.as_str().as_bytes() == name
}

fn number_in(word: &Text) -> Option<u64>
    ensures { result ≡ number_in word.now }
{
    number_of(word.as_str().as_bytes())
}
