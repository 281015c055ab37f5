ghost use Rattle.std.specs.Prelude.{◌≡◌, ◌<◌, ◌≤◌, ◌^◌, ℕ, IfErr, IfOk, IfSome, List, Some, length, true, false};
ghost use Rattle.json_rpc.specs.Request.{IsWireId};
ghost use Rattle.outside.specs.Faults.{Rose};
ghost use Rattle.xi_plain.specs.declared.entry.ShelfNote.TheVariants.{Done, Failed, Held, NoCall};
ghost use Rattle.xi_plain.specs.declared.command.Act.TheVariants.{NewView, Save};
ghost use Rattle.xi_plain.specs.Journal.{may_open};
ghost use Rattle.session_step.specs.Views.{IsOfLine, AreOfPlugins, AreThere, IsFoundAt, MayBeAsked};
ghost use Rattle.core_session.specs.InnerSession.{IsAsked, asks_by, holds_name};
ghost use Rattle.session_step.specs.Session.{OpenView, Session, config_after, given_by, named_view};
ghost use Rattle.core_session.specs.Shelves.{IsNoted, KeepsFiles, NoteTells, shelf_state};

use crate::made::by_answer;
use outside::{Shelf, Shelved};
use plain_text::{Bytes, List, NoMemory, Text, Texts};
use session_step::{CommandEffects, Given, Opened, Terms, both, done, opened_after, place_of};
use std::alloc::Global;
use xi_plain::{Act, Command, Config, ShelfNote};

/// What a command came to: the shelf's note of it, its piece, and the views that are open then.
#[derive(Drop)]
pub struct Asked {
    pub note: ShelfNote,
    pub piece: Text,
    pub held: List<Opened>,
    /// How many were opened by then.
    pub opened: u64,
    /// The lines that tell plugins of it.
    pub told: Texts,
}

/// What a command comes to, for which the shelf is asked where it opens a file or saves a view. `ended` are the plugins whose sessions have
/// ended, and `config` is how texts are laid out and edited after it.
pub fn ask<H: Shelf>(
    alloc: Global,
    shelf: &mut H,
    held: &[Opened],
    terms: Terms,
    ended: &[u32],
    opened: u64,
    config: Config,
    command: &Command,
) -> Result<Asked, NoMemory>
    requires asked { MayBeAsked held.now }
    requires ended { AreOfPlugins terms.plugins ended.now }
    requires few { opened < 2 ^ 63 }
    requires tab { 0 < config.tab }
    requires limit { terms.limit ≤ 2 ^ 60 }
    requires id { IsWireId command.now.id }
    requires line { IsOfLine command.now.act }
    ensures made { (session : Session) → AreThere held.now session.views → terms ≡ session.terms
        → ended.now ≡ session.ended → opened ≡ session.opened → config ≡ config_after session.config command.now.act → IfOk result (IsAsked session command.now) }
    ensures noted { (session : Session) → AreThere held.now session.views → IfOk result (λ asked.
        IsNoted (shelf_state H.files H.faults shelf.old) (shelf_state H.files H.faults shelf.new)
        session.views command.now.act asked.note) }
    ensures kept { IfErr result (λ _.
        KeepsFiles (shelf_state H.files H.faults shelf.old) (shelf_state H.files H.faults shelf.new)) }
    ensures unasked { asks_by held.now command.now.act ≡ false → shelf.new ≡ shelf.old }
{
    match &command.act {
        Act::NewView { path: Some(path) } => opening(
            alloc, shelf, held, terms, ended, opened, config, command, path,
        ),
        Act::Save { view, path } => saving(
            alloc, shelf, held, terms, ended, opened, config, command, view, path,
        ),
        _ => noted(
            alloc,
            held,
            terms,
            ended,
            opened,
            config,
            command,
            ShelfNote::NoCall,
            Given::Nothing,
        ),
    }
}

/// What a command comes to that has this note.
fn noted(
    alloc: Global,
    held: &[Opened],
    terms: Terms,
    ended: &[u32],
    opened: u64,
    config: Config,
    command: &Command,
    note: ShelfNote,
    given: Given,
) -> Result<Asked, NoMemory>
    requires asked { MayBeAsked held.now }
    requires ended { AreOfPlugins terms.plugins ended.now }
    requires few { opened < 2 ^ 63 }
    requires tab { 0 < config.tab }
    requires limit { terms.limit ≤ 2 ^ 60 }
    requires id { IsWireId command.now.id }
    requires line { IsOfLine command.now.act }
    requires given { given ≡ given_by note }
    ensures made { (session : Session) → AreThere held.now session.views → terms ≡ session.terms
        → ended.now ≡ session.ended → opened ≡ session.opened → config ≡ config_after session.config command.now.act → IfOk result (IsAsked session command.now) }
    ensures note { IfOk result (λ asked. asked.note ≡ note) }
{
    let then = opened_after(opened, &command.act, &given);
    let done = done(alloc, held, terms, ended, opened, config, command, given);
    let (note, CommandEffects { piece, held, told }) = both(note, done)?;
    Ok(Asked {
        note,
        piece,
        held,
        opened: then,
        told,
    })
}

/// What an opening of the file with this path comes to: the shelf is asked first, since what it gives is the text.
fn opening<H: Shelf>(
    alloc: Global,
    shelf: &mut H,
    held: &[Opened],
    terms: Terms,
    ended: &[u32],
    opened: u64,
    config: Config,
    command: &Command,
    path: &Text,
) -> Result<Asked, NoMemory>
    requires asked { MayBeAsked held.now }
    requires ended { AreOfPlugins terms.plugins ended.now }
    requires few { opened < 2 ^ 63 }
    requires tab { 0 < config.tab }
    requires limit { terms.limit ≤ 2 ^ 60 }
    requires id { IsWireId command.now.id }
    requires act { command.now.act ≡ NewView (Some path.now) }
    ensures made { (session : Session) → AreThere held.now session.views → terms ≡ session.terms
        → ended.now ≡ session.ended → opened ≡ session.opened → config ≡ config_after session.config command.now.act → IfOk result (IsAsked session command.now) }
    ensures noted { (session : Session) → IfOk result (λ asked.
        IsNoted (shelf_state H.files H.faults shelf.old) (shelf_state H.files H.faults shelf.new)
        session.views command.now.act asked.note) }
    ensures kept { IfErr result (λ _.
        KeepsFiles (shelf_state H.files H.faults shelf.old) (shelf_state H.files H.faults shelf.new)) }
{
    let (note, given) = read(alloc, shelf, path)?;
    noted(
        alloc, held, terms, ended, opened, config, command, note, given,
    )
}

/// What the shelf has under a path: its note, and what it gave.
fn read<H: Shelf>(alloc: Global, shelf: &mut H, path: &Text) -> Result<(ShelfNote, Given), NoMemory>
    ensures given { IfOk result (λ found. found.1 ≡ given_by found.0) }
    ensures kind { IfOk result (λ found. may_open found.0 ≡ true) }
    ensures tells { IfOk result (λ found. IfSome (H.files shelf.old) (λ files. NoteTells files (NewView (Some path.now)) found.0)) }
    ensures failed { IfOk result (λ found. found.0 ≡ Failed → Rose (H.faults shelf.old) (H.faults shelf.new)) }
    ensures kept { KeepsFiles (shelf_state H.files H.faults shelf.old) (shelf_state H.files H.faults shelf.new) }
{
    match shelf.read(alloc, path) {
        Shelved::Held(bytes) => {
            let given = text_of(alloc, &bytes)?;
            Ok((ShelfNote::Held(bytes), given))
        }
        Shelved::Absent => Ok((ShelfNote::Absent, Given::Found(Text::new(alloc)))),
        Shelved::Failed => Ok((ShelfNote::Failed, Given::Failed)),
        Shelved::NoMemory => Err(NoMemory),
    }
}

/// The text that these bytes are, where they are one.
fn text_of(alloc: Global, bytes: &Bytes) -> Result<Given, NoMemory>
    ensures { IfOk result (λ given. given ≡ given_by (Held bytes.now)) }
{
    match Text::from_utf8(Vec::from_slice(alloc, bytes.as_slice())?) {
        Ok(text) => Ok(Given::Found(text)),
        Err(_) => Ok(Given::NotText),
    }
}

/// What a saving of the view with this name comes to, under a path.
fn saving<H: Shelf>(
    alloc: Global,
    shelf: &mut H,
    held: &[Opened],
    terms: Terms,
    ended: &[u32],
    opened: u64,
    config: Config,
    command: &Command,
    name: &Text,
    path: &Text,
) -> Result<Asked, NoMemory>
    requires asked { MayBeAsked held.now }
    requires ended { AreOfPlugins terms.plugins ended.now }
    requires few { opened < 2 ^ 63 }
    requires tab { 0 < config.tab }
    requires limit { terms.limit ≤ 2 ^ 60 }
    requires id { IsWireId command.now.id }
    requires act { command.now.act ≡ Save name.now path.now }
    ensures made { (session : Session) → AreThere held.now session.views → terms ≡ session.terms
        → ended.now ≡ session.ended → opened ≡ session.opened → config ≡ config_after session.config command.now.act → IfOk result (IsAsked session command.now) }
    ensures noted { (session : Session) → AreThere held.now session.views → IfOk result (λ asked.
        IsNoted (shelf_state H.files H.faults shelf.old) (shelf_state H.files H.faults shelf.new)
        session.views command.now.act asked.note) }
    ensures kept { IfErr result (λ _.
        KeepsFiles (shelf_state H.files H.faults shelf.old) (shelf_state H.files H.faults shelf.new)) }
    ensures unasked { holds_name held.now name.now ≡ false → shelf.new ≡ shelf.old }
{
    match place_of(held, name) {
        Some(at) => saving_at(
            alloc, shelf, held, terms, ended, opened, config, command, at, path,
        ),
        None => noted(
            alloc,
            held,
            terms,
            ended,
            opened,
            config,
            command,
            ShelfNote::NoCall,
            Given::Nothing,
        ),
    }
}

/// The same of the view that stands there. What the saving is where it is done and where it fails is made before the shelf is asked, so
/// memory is not wanting after a file was written.
fn saving_at<H: Shelf>(
    alloc: Global,
    shelf: &mut H,
    held: &[Opened],
    terms: Terms,
    ended: &[u32],
    opened: u64,
    config: Config,
    command: &Command,
    at: usize,
    path: &Text,
) -> Result<Asked, NoMemory>
    requires asked { MayBeAsked held.now }
    requires ended { AreOfPlugins terms.plugins ended.now }
    requires few { opened < 2 ^ 63 }
    requires tab { 0 < config.tab }
    requires limit { terms.limit ≤ 2 ^ 60 }
    requires id { IsWireId command.now.id }
    requires line { IsOfLine command.now.act }
    requires inside { at < length held.now }
    ensures made { (session : Session) → AreThere held.now session.views → terms ≡ session.terms
        → ended.now ≡ session.ended → opened ≡ session.opened → config ≡ config_after session.config command.now.act → IfOk result (IsAsked session command.now) }
    ensures noted { (session : Session) (view : OpenView) (name : List ℕ) → AreThere held.now session.views
        → IsFoundAt session.views at view → named_view session.views name ≡ Some view
        → command.now.act ≡ Save name path.now → IfOk result (λ asked.
        IsNoted (shelf_state H.files H.faults shelf.old) (shelf_state H.files H.faults shelf.new)
        session.views command.now.act asked.note) }
    ensures kept { IfErr result (λ _.
        KeepsFiles (shelf_state H.files H.faults shelf.old) (shelf_state H.files H.faults shelf.new)) }
{
    let text = held[at].doc.head_text(alloc)?;
    let done = noted(
        alloc,
        held,
        terms,
        ended,
        opened,
        config,
        command,
        ShelfNote::Done,
        Given::Done,
    )?;
    let failed = noted(
        alloc,
        held,
        terms,
        ended,
        opened,
        config,
        command,
        ShelfNote::Failed,
        Given::Failed,
    );
    let (done, failed) = both(done, failed)?;
    by_answer(
        shelf.write(alloc, path, text.as_str().as_bytes()),
        done,
        failed,
    )
}
