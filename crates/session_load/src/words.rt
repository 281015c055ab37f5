ghost use Rattle.std.specs.Prelude.{◌≡◌, option_map, codes, map};
ghost use Rattle.std.specs.Str.{encode_utf8_all};
ghost use Rattle.session_load.specs.Words.{Wish, after_line, after_lines, is_named, lines_of, number_in, wish_in, wish_of};

use case_lines::positive_of;
use plain_text::{List, NoMemory, Text, Texts};
use std::env;
use std::rt::Env;

/// How long the text is.
#[derive(Clone, Copy)]
pub enum Size {
    /// So many lines of so many characters, each ended by LF.
    Lines(u64, u64),
    /// One line of so many characters.
    Line(u64),
}

/// What the words ask.
#[derive(Clone, Copy)]
pub struct Asked<'a> {
    pub size: Size,
    /// The paths of the scripts, at least one.
    pub scripts: &'a [Text],
}

/// The words after the program's name.
pub fn words<R: Env + AllocGlobal>(rt: &R) -> anyhow::Result<Texts> {
    let mut words = List::new(rt.alloc());
    for word in env::args(rt)?.skip(1) {
        words.push(Text::from_string(word))?;
    }
    Ok(words)
}

/// What the words ask, where they are a form.
pub fn asked_of(words: &[Text]) -> Option<Asked<'_>>
    ensures { option_map (λ asked. record { size = asked.size; scripts = asked.scripts.now }) result ≡ wish_in words.now }
{
    let (form, rest) = words.split_first()?;
    if is_named(form, b"lines") {
        after_lines(rest)
    } else if is_named(form, b"line") {
        after_line(rest)
    } else {
        None
    }
}

/// `N of M SCRIPT..`.
fn after_lines(words: &[Text]) -> Option<Asked<'_>>
    ensures { option_map (λ asked. record { size = asked.size; scripts = asked.scripts.now }) result ≡ after_lines words.now }
{
    match words {
        [count, of, len, scripts @ ..] if is_named(of, b"of") => {
            of_size(lines_of(number_in(count), number_in(len)), scripts)
        }
        _ => None,
    }
}

/// `of N SCRIPT..`.
fn after_line(words: &[Text]) -> Option<Asked<'_>>
    ensures { option_map (λ asked. record { size = asked.size; scripts = asked.scripts.now }) result ≡ after_line words.now }
{
    match words {
        [of, len, scripts @ ..] if is_named(of, b"of") => {
            of_size(number_in(len).map(Size::Line), scripts)
        }
        _ => None,
    }
}

fn lines_of(count: Option<u64>, len: Option<u64>) -> Option<Size>
    ensures { result ≡ lines_of count len }
{
    Some(Size::Lines(count?, len?))
}

/// Of this size, where there is a script.
fn of_size(size: Option<Size>, scripts: &[Text]) -> Option<Asked<'_>>
    ensures { option_map (λ asked. record { size = asked.size; scripts = asked.scripts.now }) result ≡ wish_of size scripts.now }
{
    if scripts.is_empty() {
        return None;
    }
    Some(Asked {
        size: size?,
        scripts,
    })
}

fn is_named(word: &Text, name: &[u8]) -> bool
    ensures { result ≡ is_named word.now name.now }
{
    word.as_str().as_bytes() == name
}

fn number_in(word: &Text) -> Option<u64>
    ensures { result ≡ number_in word.now }
{
    positive_of(word.as_str().as_bytes())
}
