ghost use Rattle.std.specs.Prelude.{◌≡◌, option_map};
ghost use Rattle.serde_json.specs.Find.{as_str};
ghost use Rattle.serde_json.specs.View.{view};
ghost use Rattle.view_update.specs.Reading.{as_count, member_as};
ghost use Rattle.screen_flags.specs.Flags.{change_from, change_in, change_named};

use serde_json::Value;

/// What an operation does to lines, whatever stands in them.
#[derive(Clone, Copy)]
pub enum Change {
    /// So many old lines stay as valid as they are.
    Keeps(u64),
    /// So many old lines are passed over.
    Skips(u64),
    /// So many lines come that are not valid.
    Loses(u64),
    /// So many lines come that are.
    Gains(u64),
}

/// The change that a value says, if it says one.
pub fn change_in(value: &Value) -> Option<Change>
    ensures { result ≡ change_in (view value.now) }
{
    change_from(text_at(value, "op"), count_at(value, "n"))
}

fn change_from(name: Option<&str>, n: Option<u64>) -> Option<Change>
    ensures { result ≡ change_from (option_map (λ name. name.now) name.entry) n }
{
    match (name, n) {
        (Some(name), Some(n)) => change_named(name, n),
        _ => None,
    }
}

fn change_named(name: &str, n: u64) -> Option<Change>
    ensures { result ≡ change_named name.now n }
{
    if name == "copy" {
        Some(Change::Keeps(n))
    } else if name == "skip" {
        Some(Change::Skips(n))
    } else if name == "invalidate" {
        Some(Change::Loses(n))
    } else if name == "ins" {
        Some(Change::Gains(n))
    } else if name == "update" {
        Some(Change::Keeps(n))
    } else {
        None
    }
}

fn text_at<'a>(value: &'a Value, name: &str) -> Option<&'a str>
    ensures { option_map (λ text. text.now) result ≡ member_as as_str name.now (view value.now) }
{
    match value.get(name) {
        Some(member) => member.as_str(),
        None => None,
    }
}

fn count_at(value: &Value, name: &str) -> Option<u64>
    ensures { result ≡ member_as as_count name.now (view value.now) }
{
    match value.get(name) {
        Some(member) => member.as_u64(),
        None => None,
    }
}
