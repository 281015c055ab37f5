ghost use Rattle.std.specs.Prelude.{◌≡◌, IfOk, option_map};
ghost use Rattle.protocol_cases.specs.TurnFault.{first_text, further_turn, gave_fault, given_fault, missing_turn, one_fault, plugins_fault, rest_fault, turns_fault};
ghost use Rattle.protocol_cases.specs.Turns.{joined};

use crate::player::{Player, turns_of};
use crate::verdict::{Difference, Fault, Place, bytes_fault};
use case_scripts::TurnSaid;
use plain_text::{NoMemory, Text};
use std::alloc::Global;

/// What is wrong first with the turns of plugins. One that lacked memory to keep its turns has none to be compared.
pub fn plugins_fault(
    alloc: Global,
    turns: &[TurnSaid],
    players: &[Player],
) -> Result<Option<Fault>, NoMemory>
    ensures { IfOk result (λ found. found ≡ plugins_fault turns.now 1 players.now) }
{
    let mut number = 1;
    for player in players {
        let said = turns_of(alloc, turns, number)?;
        let Some(had) = player.had() else {
            return Err(NoMemory);
        };
        if let Some(fault) = turns_fault(alloc, number, said.as_slice(), had)? {
            return Ok(Some(fault));
        }
        number += 1;
    }
    Ok(None)
}

/// The turns of one plugin.
fn turns_fault(
    alloc: Global,
    plugin: u64,
    said: &[TurnSaid],
    had: &[TurnSaid],
) -> Result<Option<Fault>, NoMemory>
    ensures { IfOk result (λ found. found ≡ turns_fault plugin 1 said.now had.now) }
{
    let mut at = 0;
    while at < said.len() && at < had.len() {
        let turn = at as u64 + 1;
        if let Some(fault) = one_fault(alloc, plugin, turn, &said[at], &had[at])? {
            return Ok(Some(fault));
        }
        at += 1;
    }
    rest_fault(alloc, plugin, at as u64 + 1, said.get(at), had.get(at))
}

/// What is wrong where one of two lists of turns has ended.
fn rest_fault(
    alloc: Global,
    plugin: u64,
    turn: u64,
    said: Option<&TurnSaid>,
    had: Option<&TurnSaid>,
) -> Result<Option<Fault>, NoMemory>
    ensures { IfOk result (λ found. found ≡ rest_fault plugin turn
        (option_map (λ turn. turn.now) said.entry) (option_map (λ turn. turn.now) had.entry)) }
{
    match (said, had) {
        (None, None) => Ok(None),
        (Some(said), _) => Ok(Some(missing_turn(alloc, plugin, turn, said)?)),
        (None, Some(had)) => Ok(Some(further_turn(alloc, plugin, turn, had)?)),
    }
}

fn missing_turn(alloc: Global, plugin: u64, turn: u64, said: &TurnSaid) -> Result<Fault, NoMemory>
    ensures { IfOk result (λ fault. fault ≡ missing_turn plugin turn said.now) }
{
    let difference = Difference::new(alloc, 1, first_text(said.given.as_slice()), b"")?;
    Ok(Fault::Differs(Place::Turn { plugin, turn }, difference))
}

fn further_turn(alloc: Global, plugin: u64, turn: u64, had: &TurnSaid) -> Result<Fault, NoMemory>
    ensures { IfOk result (λ fault. fault ≡ further_turn plugin turn had.now) }
{
    let difference = Difference::new(alloc, 1, b"", first_text(had.given.as_slice()))?;
    Ok(Fault::Differs(Place::Turn { plugin, turn }, difference))
}

fn first_text(texts: &[Text]) -> &[u8]
    ensures { result.now ≡ first_text texts.now }
{
    match texts.first() {
        Some(text) => text.as_str().as_bytes(),
        None => &[],
    }
}

fn one_fault(
    alloc: Global,
    plugin: u64,
    turn: u64,
    said: &TurnSaid,
    had: &TurnSaid,
) -> Result<Option<Fault>, NoMemory>
    ensures { IfOk result (λ found. found ≡ one_fault plugin turn said.now had.now) }
{
    if let Some(fault) = given_fault(alloc, plugin, turn, said, had)? {
        return Ok(Some(fault));
    }
    gave_fault(alloc, plugin, turn, said, had)
}

/// What it was given.
fn given_fault(
    alloc: Global,
    plugin: u64,
    turn: u64,
    said: &TurnSaid,
    had: &TurnSaid,
) -> Result<Option<Fault>, NoMemory>
    ensures { IfOk result (λ found. found ≡ given_fault plugin turn said.now had.now) }
{
    let expected = joined(alloc, said.given.as_slice())?;
    let got = joined(alloc, had.given.as_slice())?;
    bytes_fault(alloc, Place::Turn { plugin, turn }, &expected, &got)
}

/// What it gave back, and whether it was done.
fn gave_fault(
    alloc: Global,
    plugin: u64,
    turn: u64,
    said: &TurnSaid,
    had: &TurnSaid,
) -> Result<Option<Fault>, NoMemory>
    ensures { IfOk result (λ found. found ≡ gave_fault plugin turn said.now had.now) }
{
    let expected = joined(alloc, said.gives.as_slice())?;
    let got = joined(alloc, had.gives.as_slice())?;
    if expected.as_slice() == got.as_slice() && said.done == had.done {
        Ok(None)
    } else {
        Ok(Some(Fault::Gave { plugin, turn }))
    }
}

/// Lines, each with its LF.
fn joined(alloc: Global, lines: &[Text]) -> Result<Vec<u8>, NoMemory>
    ensures { IfOk result (λ bytes. bytes.items ≡ joined lines.now) }
{
    let mut bytes = Vec::new(alloc);
    for line in lines {
        bytes.extend_from_slice(line.as_str().as_bytes())?;
        bytes.push(b'\n')?;
    }
    Ok(bytes)
}
