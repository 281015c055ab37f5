ghost use Rattle.std.specs.Prelude.{◌≡◌, ℕ, List, None, Some, IfOk};
ghost use Rattle.plain_edits.specs.declared.style.Style.{Style};
ghost use Rattle.json_rpc.specs.Request.{IsWireId};
ghost use Rattle.plugin_wire.specs.FairAsk.{IsFairAsk};
ghost use Rattle.style_numbers.specs.InMemory.{table_after};
ghost use Rattle.entry_lines.specs.PluginAnswer.{verdict_of};
ghost use Rattle.session_step.specs.PluginStep.{plugin_outcome, plugin_refusal, styles_after};
ghost use Rattle.session_step.specs.Session.{OpenView, ended_after, ended_with};
ghost use Rattle.session_step.specs.Views.{AreThere, HaveSessions, MayBeAsked};
ghost use Rattle.session_step.specs.declared.opened.Opened.{Opened as HeldView};
ghost use Rattle.session_step.specs.PluginEffects.{IsPluginOutcome};
ghost use Rattle.core_session.specs.PluginMade.{AreLinesBy, HasCommand, IsEndedNext, IsPluginMade};

use entry_lines::{PluginReply, answer_of, notices_of, piece_of};
use plain_text::{List, NoMemory, Text, Texts, TryClone};
use session_step::{Acted, NextViews, Opened, PluginEffects, both, plugin_act};
use span_styles::StyleTable;
use std::alloc::Global;
use xi_plain::{Act, Command, Id};

/// What a command of a plugin comes to.
#[derive(Drop)]
pub(crate) enum PluginMade {
    /// It is refused by this line.
    Refused(Text),
    Taken(PluginPrepared),
}

/// What a command of a plugin comes to that is taken, before it is an entry.
#[derive(Drop)]
pub(crate) struct PluginPrepared {
    pub command: Command,
    /// The line that answers the plugin, without its LF, and empty where none does.
    pub answer: Text,
    /// What the front end is written.
    pub piece: Text,
    /// The lines that tell plugins of it.
    pub told: Texts,
    pub next: NextViews,
    /// The table of styles after it, where one is new.
    pub grown: Option<StyleTable>,
    /// The plugins whose sessions have ended then, where there is one more.
    pub gone: Option<List<u32>>,
}

/// The lines of a command that is taken.
#[derive(Drop)]
struct PluginLines {
    answer: Text,
    piece: Text,
    told: Texts,
}

/// What a command of a plugin comes to, beside the views that are open, the table of styles, and the plugins whose sessions have ended. All its
/// lines are made, so that to put it in place takes no memory. The cost is that of [`plugin_act`] and of the lines.
pub(crate) fn plugin_command(
    alloc: Global,
    held: &[Opened],
    table: &StyleTable,
    ended: &[u32],
    caller: u32,
    command: Command,
) -> Result<PluginMade, NoMemory>
    requires asked { MayBeAsked held.now }
    requires caller { HaveSessions caller held.now }
    requires fair { IsFairAsk command.act }
    requires id { IsWireId command.id }
    ensures made { (views : List OpenView) → AreThere held.now views
        → IfOk result (IsPluginMade held.now views table.now ended.now caller command) }
    ensures command { IfOk result (HasCommand command) }
{
    match plugin_act(alloc, held, table, caller, &command.act)? {
        Acted::Refused(reply) => refused(alloc, command, reply),
        Acted::Taken(effects) => taken(alloc, ended, caller, command, effects),
    }
}

// The line of a refusal.
fn refused(alloc: Global, command: Command, reply: PluginReply) -> Result<PluginMade, NoMemory>
    requires id { IsWireId command.id }
    ensures made { (held : List HeldView) (views : List OpenView) (styles : List Style) (ended : List ℕ) (caller : ℕ)
        → plugin_refusal views styles caller command.act ≡ Some (verdict_of reply)
        → IfOk result (IsPluginMade held views styles ended caller command) }
    ensures command { IfOk result (HasCommand command) }
{
    let line = answer_of(alloc, &command.id, &reply);
    drop((command, reply));
    Ok(PluginMade::Refused(line?))
}

// What a command comes to that is taken, and had these effects.
fn taken(
    alloc: Global,
    ended: &[u32],
    caller: u32,
    command: Command,
    effects: PluginEffects,
) -> Result<PluginMade, NoMemory>
    requires id { IsWireId command.id }
    ensures made { (held : List HeldView) (views : List OpenView) (styles : List Style) → plugin_refusal views styles caller command.act ≡ None
        → IsPluginOutcome held (plugin_outcome views styles caller command.act) effects
        → table_after styles effects.grown ≡ styles_after styles command.act
        → IfOk result (IsPluginMade held views styles ended.now caller command) }
    ensures command { IfOk result (HasCommand command) }
{
    let lines = lines_of(alloc, &command.id, &effects);
    let gone = ended_after(alloc, ended, caller, &command.act);
    let (kept, lines) = both((command, effects), lines)?;
    let ((kept, lines), gone) = both((kept, lines), gone)?;
    let (command, effects) = kept;
    Ok(PluginMade::Taken(prepared(command, effects, lines, gone)))
}

// The answer, the piece and the notices of a command with these effects.
fn lines_of(alloc: Global, id: &Id, effects: &PluginEffects) -> Result<PluginLines, NoMemory>
    requires { IsWireId id.now }
    ensures { IfOk result (AreLinesBy id.now effects.now) }
{
    let piece = piece_of(alloc, id, &effects.front)?;
    let answer = answer_of(alloc, id, &effects.reply)?;
    let told = notices_of(alloc, effects.news.as_slice())?;
    Ok(PluginLines {
        answer,
        piece,
        told,
    })
}

// What was made of a command, in one.
fn prepared(
    command: Command,
    effects: PluginEffects,
    lines: PluginLines,
    gone: Option<List<u32>>,
) -> PluginPrepared
    ensures { result ≡ record {
      command = command;
      answer = lines.answer;
      piece = lines.piece;
      told = lines.told;
      next = effects.next;
      grown = effects.grown;
      gone = gone;
    } }
{
    let PluginLines {
        answer,
        piece,
        told,
    } = lines;
    let PluginEffects {
        reply,
        front,
        grown,
        next,
        news,
    } = effects;
    drop((reply, front));
    drop(news);
    PluginPrepared {
        command,
        answer,
        piece,
        told,
        next,
        grown,
        gone,
    }
}

// The plugins whose sessions have ended after an act of this one, where there is one more.
fn ended_after(
    alloc: Global,
    ended: &[u32],
    caller: u32,
    act: &Act,
) -> Result<Option<List<u32>>, NoMemory>
    ensures { IfOk result (IsEndedNext ended.now (ended_after ended.now caller act.now)) }
{
    match act {
        Act::Ended => ended_with(alloc, ended, caller),
        _ => Ok(None),
    }
}

// The same once its session has ended.
fn ended_with(alloc: Global, ended: &[u32], caller: u32) -> Result<Option<List<u32>>, NoMemory>
    ensures { IfOk result (IsEndedNext ended.now (ended_with ended.now caller)) }
{
    if ended.contains(&caller) {
        return Ok(None);
    }
    let mut more = List::from_vec(Vec::from_slice(alloc, ended)?);
    more.push(caller)?;
    Ok(Some(more))
}
