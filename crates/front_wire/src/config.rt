ghost use Rattle.std.specs.Prelude.{◌≡◌, ◌≤◌, ◌^◌, ◌<◌, Option, Some, IfSome, option_map, option_and_then};
ghost use Rattle.serde_json.specs.Find.{get, as_str};
ghost use Rattle.serde_json.specs.View.{view};
ghost use Rattle.front_wire.specs.Front.{no_changes, number_between, truth_there, changes_from, changes_of, is_general};
ghost use Rattle.front_wire.specs.Fair.{AreFairChanges, IsBetween};

use crate::member::whole_of;
use serde_json::Value;
use xi_plain::Changes;

/// The columns from one tab stop to the next.
const LEAST_TAB: u64 = 1;

const MOST_TAB: u64 = 16;

/// The most columns at which lines are wrapped.
const MOST_WIDTH: u64 = 10_000;

/// Whether a domain is the one that counts.
pub fn is_general(domain: Option<&Value>) -> bool
    ensures { result ≡ is_general (option_and_then as_str (option_map (λ v. view v.now) domain.entry)) }
{
    match domain.and_then(Value::as_str) {
        Some(name) => name == "general",
        None => false,
    }
}

/// A change that says nothing.
pub fn no_changes() -> Changes
    ensures changes { result ≡ no_changes }
    ensures fair { AreFairChanges result }
{
    Changes {
        tab: None,
        width: None,
        spaces: None,
    }
}

/// What an object says of the configuration, where each key that counts is right.
pub fn changes_of(changes: Option<&Value>) -> Option<Changes>
    ensures changes { result ≡ changes_of (option_map (λ v. view v.now) changes.entry) }
    ensures fair { IfSome result AreFairChanges }
{
    let tab = number_between(LEAST_TAB, MOST_TAB, key(changes, "tab_size"))?;
    let width = number_between(0, MOST_WIDTH, key(changes, "wrap_width"))?;
    let spaces = truth_there(key(changes, "translate_tabs_to_spaces"))?;
    Some(Changes { tab, width, spaces })
}

fn key<'a>(changes: Option<&'a Value>, name: &str) -> Option<&'a Value>
    ensures { option_map (λ v. view v.now) result
        ≡ option_and_then (get name.now) (option_map (λ v. view v.now) changes.entry) }
{
    match changes {
        Some(changes) => changes.get(name),
        None => None,
    }
}

fn number_between(least: u64, most: u64, value: Option<&Value>) -> Option<Option<u32>>
    requires { most < 2 ^ 32 }
    ensures number { result ≡ number_between least most (option_map (λ v. view v.now) value.entry) }
    ensures between { IfSome result (IsBetween least most) }
{
    let Some(value) = value else {
        return Some(None);
    };
    let number = whole_of(value)?;
    if least <= number && number <= most {
        Some(Some(number as u32))
    } else {
        None
    }
}

fn truth_there(value: Option<&Value>) -> Option<Option<bool>>
    ensures { result ≡ truth_there (option_map (λ v. view v.now) value.entry) }
{
    match value {
        Some(value) => Some(Some(value.as_bool()?)),
        None => Some(None),
    }
}
