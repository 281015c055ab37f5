ghost use Rattle.std.specs.Prelude.{◌≡◌, [], ◌∷◌, IfOk, drop, map, string_bytes};
ghost use Rattle.std.specs.Str.{chars};
ghost use Rattle.std.specs.Vec.Iter.{into_iter_items};
ghost use Rattle.storm_lines.specs.Forms.{is_named};
ghost use Rattle.xi_core.specs.Words.{form_words, handed_by, invocation_in, recorded, replay_of, run_in, run_of};

use plain_text::{List, NoMemory, Text, Texts};
use std::alloc::Global;
use std::rt::Env;
use std::{env, io};
use xi_forms::{Form, form_of};

/// What the words ask of the program.
#[derive(Clone, Copy)]
pub enum Invocation {
    Help,
    Version,
    /// The table of methods.
    Methods,
    /// A run of this form, beside these plugins.
    Run(Form, Handed),
    /// The same, whose tape and journal are kept in the folder that the second word names.
    Record(Form, Handed),
    /// What the run wrote whose tape and journal are in the folder that the second word names.
    Replay,
    /// They are no form.
    Misused,
}

/// The plugins that a run is handed.
#[derive(Clone, Copy)]
pub enum Handed {
    /// The one that ships for its form.
    Shipped,
    Nothing,
}

/// The words after the program's name, one text each; one empty word where they can't be read as text.
pub fn words<R: Env + AllocGlobal>(rt: &R) -> Result<Texts, NoMemory> {
    match env::args(rt) {
        Ok(args) => after_name(rt.alloc(), args),
        Err(error) if error.kind() == io::ErrorKind::InvalidData => one_empty(rt.alloc()),
        Err(_) => Err(NoMemory),
    }
}

/// The texts of the arguments but the first, which is the program's name.
fn after_name(alloc: Global, args: env::Args) -> Result<Texts, NoMemory>
    ensures { IfOk result (λ words. words
        ≡ map (λ word. chars (string_bytes word)) (drop 1 (into_iter_items args))) }
{
    let mut rest = args;
    let _name = rest.next();
    texts(alloc, rest)
}

/// One text each.
fn texts(alloc: Global, args: env::Args) -> Result<Texts, NoMemory>
    ensures { IfOk result (λ texts. texts ≡ map (λ word. chars (string_bytes word)) (into_iter_items args)) }
{
    let mut rest = args;
    let mut texts = List::new(alloc);
    while let Some(word) = rest.next() {
        texts.push(Text::from_string(word))?;
    }
    Ok(texts)
}

fn one_empty(alloc: Global) -> Result<Texts, NoMemory>
    ensures { IfOk result (λ words. words ≡ [] ∷ []) }
{
    let mut words = List::new(alloc);
    words.push(Text::new(alloc))?;
    Ok(words)
}

/// What the words ask for: a run by the words of its form, before which it may be told to go without plugins, and before that where it is
/// recorded; or what a recorded run wrote.
pub fn invocation_of(words: &[Text]) -> Invocation
    ensures { result ≡ invocation_in words.now }
{
    match words {
        [word] if is_named(word, b"--help") => Invocation::Help,
        [word] if is_named(word, b"--version") => Invocation::Version,
        [word] if is_named(word, b"--methods") => Invocation::Methods,
        [word, _folder, later @ ..] if is_named(word, b"--record") => recorded(run_asked(later)),
        [word, _folder, later @ ..] if is_named(word, b"replay") => replay_of(later),
        _ => run_asked(words),
    }
}

/// The run that these words ask for, if they do.
fn run_asked(words: &[Text]) -> Invocation
    ensures { result ≡ run_in words.now }
{
    run_of(form_of(form_words(words)), handed_by(words))
}

/// The words of the form, behind what is said of the plugins.
pub fn form_words(words: &[Text]) -> &[Text]
    ensures { result.now ≡ form_words words.now }
{
    match words {
        [flag, form @ ..] if is_named(flag, b"--no-plugins") => form,
        _ => words,
    }
}

/// What is said of the plugins.
fn handed_by(words: &[Text]) -> Handed
    ensures { result ≡ handed_by words.now }
{
    match words {
        [flag, ..] if is_named(flag, b"--no-plugins") => Handed::Nothing,
        _ => Handed::Shipped,
    }
}

/// The run of this form, if there is one.
fn run_of(form: Option<Form>, handed: Handed) -> Invocation
    ensures { result ≡ run_of form handed }
{
    match form {
        Some(form) => Invocation::Run(form, handed),
        None => Invocation::Misused,
    }
}

/// What was recorded, written again, where no word stands behind its folder.
fn replay_of(later: &[Text]) -> Invocation
    ensures { result ≡ replay_of later.now }
{
    match later {
        [] => Invocation::Replay,
        _ => Invocation::Misused,
    }
}

/// The same run, recorded, where it has a tape.
fn recorded(run: Invocation) -> Invocation
    ensures { result ≡ recorded run }
{
    match run {
        Invocation::Run(Form::Threads, handed) => Invocation::Record(Form::Threads, handed),
        Invocation::Run(Form::Alone, handed) => Invocation::Record(Form::Alone, handed),
        _ => Invocation::Misused,
    }
}

fn is_named(word: &Text, name: &[u8]) -> bool
    ensures { result ≡ is_named word.now name.now }
{
    word.as_str().as_bytes() == name
}
