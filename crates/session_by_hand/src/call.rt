ghost use Rattle.std.specs.Prelude.{◌≡◌, ◌≤◌, Option, option_map, IfSome};
ghost use Rattle.session_by_hand.specs.Call.{IsOfOne, after_mark, call_of, call_view, caller_call, front_call, front_order, order_of, plugin_call, plugins_of};

use case_lines::{Words, number_of};

/// The most plugins that a session may have here, as many as a run has.
const MOST_PLUGINS: u64 = 64;

/// A call of the session.
#[derive(Clone, Copy)]
pub enum Call<'a> {
    /// A line of the front end.
    Front(&'a [u8]),
    /// A line of the plugin with this number, from 1.
    Plugin(u32, &'a [u8]),
    /// That plugin is done.
    Ended(u32),
    /// The notices from the entry at this place on, as that plugin looks.
    Look(u32, u64),
    Close,
}

/// How many plugins the first line says, without its LF.
pub fn plugins_of(line: &[u8]) -> Option<u32>
    ensures { result ≡ plugins_of line.now }
{
    let count = number_of(after_mark(line, b"plugins ")?)?;
    if count <= MOST_PLUGINS {
        Some(count as u32)
    } else {
        None
    }
}

/// The call that a line is, without its LF, where there are so many plugins.
pub fn call_of(plugins: u32, line: &[u8]) -> Option<Call<'_>>
    ensures call { option_map call_view result ≡ call_of plugins line.now }
    ensures caller { IfSome result (λ call. IsOfOne plugins (call_view call)) }
{
    let mut words = Words { rest: line };
    let caller = number_of(words.next_word())?;
    caller_call(plugins, caller, words.rest)
}

/// That of the caller with this number, which is 0 for the front end.
fn caller_call(plugins: u32, caller: u64, text: &[u8]) -> Option<Call<'_>>
    ensures call { option_map call_view result ≡ caller_call plugins text.now caller }
    ensures caller { IfSome result (λ call. IsOfOne plugins (call_view call)) }
{
    if caller == 0 {
        front_call(text)
    } else if caller <= u64::from(plugins) {
        plugin_call(caller as u32, text)
    } else {
        None
    }
}

fn front_call(text: &[u8]) -> Option<Call<'_>>
    ensures call { option_map call_view result ≡ front_call text.now }
    ensures caller { IfSome result (λ call. IsOfOne 0 (call_view call)) }
{
    match after_mark(text, b"!") {
        Some(order) => front_order(order),
        None => Some(Call::Front(text)),
    }
}

fn front_order(order: &[u8]) -> Option<Call<'static>>
    ensures call { option_map call_view result ≡ front_order order.now }
    ensures caller { IfSome result (λ call. IsOfOne 0 (call_view call)) }
{
    if order == b"close".as_slice() {
        Some(Call::Close)
    } else {
        None
    }
}

fn plugin_call(caller: u32, text: &[u8]) -> Option<Call<'_>>
    requires { 1 ≤ caller }
    ensures call { option_map call_view result ≡ plugin_call caller text.now }
    ensures caller { IfSome result (λ call. IsOfOne caller (call_view call)) }
{
    match after_mark(text, b"!") {
        Some(order) => order_of(caller, order),
        None => Some(Call::Plugin(caller, text)),
    }
}

/// What stands behind `!` after a plugin's number.
fn order_of(caller: u32, order: &[u8]) -> Option<Call<'static>>
    requires { 1 ≤ caller }
    ensures call { option_map call_view result ≡ order_of caller order.now }
    ensures caller { IfSome result (λ call. IsOfOne caller (call_view call)) }
{
    if order == b"end".as_slice() {
        return Some(Call::Ended(caller));
    }
    let from = number_of(after_mark(order, b"look ")?)?;
    Some(Call::Look(caller, from))
}

/// What stands after the mark, where the line begins with it.
pub fn after_mark<'a>(line: &'a [u8], mark: &[u8]) -> Option<&'a [u8]>
    ensures { option_map (λ text. text.now) result ≡ after_mark mark.now line.now }
{
    line.strip_prefix(mark)
}
