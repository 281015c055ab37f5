ghost use Rattle.std.specs.Prelude.{◌≡◌, ◌<◌, ◌≤◌, ◌^◌, List, IfErr, IfOk, true, false};
ghost use Rattle.plain_edits.specs.declared.style.Style.{Style};
ghost use Rattle.front_wire.specs.Front.{command_of};
ghost use Rattle.session_step.specs.Session.{Session, config_after};
ghost use Rattle.session_step.specs.Views.{IsOfLine, AreOfPlugins, AreThere, HasApart, MayBeAsked};
ghost use Rattle.session_step.specs.PluginEffects.{HasPlace};
ghost use Rattle.core_session.specs.Kept.{StandsForSession, front_entry};
ghost use Rattle.core_session.specs.InnerSession.{IsPrepared, asks_by};
ghost use Rattle.core_session.specs.Shelves.{IsNoted, KeepsFiles, shelf_state};

use crate::ask::{Asked, ask};
use front_wire::command_of;
use outside::Shelf;
use plain_text::{List, NoMemory, Text, Texts};
use session_step::{NextViews, Opened, Terms, both, config_after};
use span_styles::StyleTable;
use std::alloc::Global;
use xi_plain::{Command, Config, Entry, ShelfNote};

/// What a line comes to, before it is an entry.
pub struct Prepared {
    /// Its entry, where it is sent.
    pub entry: Entry,
    pub piece: Text,
    /// The lines that tell plugins of it.
    pub told: Texts,
    pub next: NextViews,
    /// The table of styles after it, where one is new.
    pub grown: Option<StyleTable>,
    /// The plugins whose sessions have ended then, where there is one more.
    pub gone: Option<List<u32>>,
    /// How many views were opened by then.
    pub opened: u64,
    /// How texts are laid out and edited from then on.
    pub config: Config,
}

/// What a line of the front end comes to, beside the views that are open and the configuration. The shelf is asked where the line opens a file
/// or saves a view.
pub fn prepare<H: Shelf>(
    alloc: Global,
    shelf: &mut H,
    held: &[Opened],
    terms: Terms,
    ended: &[u32],
    opened: u64,
    config: Config,
    line: &[u8],
) -> Result<Prepared, NoMemory>
    requires asked { MayBeAsked held.now }
    requires ended { AreOfPlugins terms.plugins ended.now }
    requires few { opened < 2 ^ 63 }
    requires tab { 0 < config.tab }
    requires limit { terms.limit ≤ 2 ^ 60 }
    ensures entry { IfOk result (λ made. made.entry ≡ front_entry (command_of line.now) made.entry.shelf true) }
    ensures asks { IfOk result (λ made. IsOfLine made.entry.command.act) }
    ensures place { IfOk result (λ made. HasPlace held.now made.next) }
    ensures prepared { (session : Session) (table : List Style) → HasApart session.views → terms ≡ session.terms
        → StandsForSession held.now table ended.now opened config session → IfOk result (IsPrepared held.now table ended.now session) }
    ensures noted { (session : Session) → AreThere held.now session.views → IfOk result (λ made.
        IsNoted (shelf_state H.files H.faults shelf.old) (shelf_state H.files H.faults shelf.new)
        session.views made.entry.command.act made.entry.shelf) }
    ensures kept { IfErr result (λ _.
        KeepsFiles (shelf_state H.files H.faults shelf.old) (shelf_state H.files H.faults shelf.new)) }
    ensures unasked { asks_by held.now (command_of line.now).act ≡ false → shelf.new ≡ shelf.old }
{
    let command = command_of(alloc, line)?;
    let config = config_after(config, &command.act);
    let asked = ask(alloc, shelf, held, terms, ended, opened, config, &command);
    let (command, asked) = both(command, asked)?;
    let Asked {
        note,
        piece,
        held,
        opened,
        told,
    } = asked;
    Ok(Prepared {
        entry: front_entry(command, note),
        piece,
        told,
        next: NextViews::All(held),
        grown: None,
        gone: None,
        opened,
        config,
    })
}

/// The entry of a command of the front end that has this note, where it is sent.
fn front_entry(command: Command, note: ShelfNote) -> Entry
    ensures { result ≡ front_entry command note true }
{
    Entry {
        caller: 0,
        command,
        shelf: note,
        sent: true,
    }
}
