//! The edit of one page.

ghost use Rattle.std.specs.Prelude.{◌≡◌, length, IfOk, OnOk, OnErr};
ghost use Rattle.plugin_side.specs.Asking.{IsAsk};
ghost use Rattle.regex_find.specs.Spots.{AreSpots};
ghost use Rattle.plugin_replacer.specs.Replacing.{edit_ask, edits_by, replacement_delta};
ghost use Rattle.plugin_replacer.specs.Turns.{Puts, in_utf8};

use delta_core::to_delta;
use plain_edits::Delta;
use plain_text::{NoMemory, Runs, Text, Texts, TryClone};
use plugin_mirror::Leaf;
use plugin_side::turn_line;
use regex_find::replace_units;
use std::alloc::Global;
use xi_plain::{Act, Command, Id};

/// Puts the line of the edit that replaces these runs of a page's text at the end, unless there is no run. After want of memory the lines
/// are as before.
pub fn put_edit(
    alloc: Global,
    leaf: &Leaf,
    runs: &Runs,
    with: &Text,
    given: &mut Texts,
) -> Result<(), NoMemory>
    requires { AreSpots (length leaf.now.page.text) 0 runs.now }
    ensures all { OnOk result (Puts (edits_by leaf.now runs.now with.now)
        (in_utf8 given.old) (in_utf8 given.new)) }
    ensures none { OnErr result (given.new ≡ given.old) }
{
    if runs.is_empty() {
        return Ok(());
    }
    let command = edit_ask(alloc, leaf, runs, with)?;
    let line = turn_line(alloc, &command)?;
    given.push(line)
}

fn edit_ask(alloc: Global, leaf: &Leaf, runs: &Runs, with: &Text) -> Result<Command, NoMemory>
    requires { AreSpots (length leaf.now.page.text) 0 runs.now }
    ensures command { IfOk result (λ command. command ≡ edit_ask leaf.now runs.now with.now) }
    ensures ask { IfOk result (λ command. IsAsk command.act) }
{
    let delta = replacement_delta(alloc, &leaf.page.text, runs, with)?;
    Ok(Command {
        id: Id::NoId,
        act: Act::PluginEdit {
            view: leaf.view.copy(alloc)?,
            rev: leaf.page.rev,
            delta,
            priority: 0,
            after_cursor: false,
            author: Text::from_ascii(alloc, "replacer")?,
            named: None,
        },
    })
}

/// The delta of the one edit that replaces the runs.
fn replacement_delta(
    alloc: Global,
    text: &Text,
    runs: &Runs,
    with: &Text,
) -> Result<Delta, NoMemory>
    requires { AreSpots (length text.now) 0 runs.now }
    ensures { IfOk result (λ delta. delta ≡ replacement_delta text.now runs.now with.now) }
{
    let units = replace_units(alloc, text, runs, with)?;
    to_delta(alloc, text, &units)
}
