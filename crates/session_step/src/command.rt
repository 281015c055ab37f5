ghost use Rattle.std.specs.Prelude.{◌≡◌, ◌<◌, ◌≤◌, ◌^◌, IfOk, Ok};
ghost use Rattle.json_rpc.specs.Request.{IsWireId};
ghost use Rattle.session_step.specs.Session.{Session, config_after};
ghost use Rattle.session_step.specs.Views.{IsOfLine, AreOfPlugins, AreThere, IsDoneWithNews, MayBeAsked};

use crate::act::{ActEffects, act_on};
use crate::given::Given;
use crate::made::both;
use crate::opened::Opened;
use crate::terms::Terms;
use entry_lines::{FrontNews, notices_of, piece_of};
use plain_text::{List, NoMemory, Text, Texts};
use std::alloc::Global;
use xi_plain::{Command, Config};

/// What a command came to: its piece, the views that are open after it, and the lines that tell plugins of it, each without its LF.
#[derive(Drop)]
pub struct CommandEffects {
    pub piece: Text,
    pub held: List<Opened>,
    pub told: Texts,
}

/// What a command comes to that was given this, with the views that are open after it. `ended` are the plugins whose
/// sessions have ended, and `config` is how texts are laid out and edited after it.
pub fn done(
    alloc: Global,
    held: &[Opened],
    terms: Terms,
    ended: &[u32],
    opened: u64,
    config: Config,
    command: &Command,
    given: Given,
) -> Result<CommandEffects, NoMemory>
    requires asked { MayBeAsked held.now }
    requires ended { AreOfPlugins terms.plugins ended.now }
    requires few { opened < 2 ^ 63 }
    requires tab { 0 < config.tab }
    requires limit { terms.limit ≤ 2 ^ 60 }
    requires id { IsWireId command.now.id }
    requires line { IsOfLine command.now.act }
    ensures { (session : Session) → AreThere held.now session.views → terms ≡ session.terms → ended.now ≡ session.ended
        → opened ≡ session.opened
        → config ≡ config_after session.config command.now.act
        → IfOk result (IsDoneWithNews session command.now given) }
{
    let effects = act_on(
        alloc,
        held,
        terms,
        ended,
        opened,
        config,
        &command.act,
        given,
    )?;
    let ActEffects {
        reply,
        held,
        updates,
        scroll,
        news: told,
    } = effects;
    let news = FrontNews {
        reply,
        styles: List::new(alloc),
        updates,
        scroll,
    };
    let piece = piece_of(alloc, &command.id, &news);
    drop(news);
    let lines = notices_of(alloc, told.as_slice());
    drop(told);
    whole(held, piece, lines)
}

/// All three, where the last two were made.
fn whole(
    held: List<Opened>,
    piece: Result<Text, NoMemory>,
    told: Result<Texts, NoMemory>,
) -> Result<CommandEffects, NoMemory>
    ensures { IfOk result (λ done. (held ≡ done.held) × (piece ≡ Ok done.piece) × (told ≡ Ok done.told)) }
{
    let (held, piece) = both(held, piece)?;
    let (held, told) = both(held, told)?;
    Ok(CommandEffects { piece, held, told })
}
