ghost use Rattle.std.specs.Prelude.{◌≡◌, ◌+◌, ◌≤◌, ◌^◌, ◌∷◌, ◌↔◌, List, length, drop, [], None, IfOk, OnOk, IfErr, IfSome, true, false, vec_len, vec_capacity};
ghost use Rattle.xi_plain.specs.declared.command.Command.{Command};
ghost use Rattle.xi_plain.specs.Journal.{IsLegal, closing_entry};
ghost use Rattle.xi_plain.specs.Reply.{has_entry};
ghost use Rattle.front_wire.specs.Front.{command_of};
ghost use Rattle.plugin_wire.specs.Asked.{ask_of};
ghost use Rattle.plugin_wire.specs.FairAsk.{IsFairCommand};
ghost use Rattle.plugin_wire.specs.Told.{stopped};
ghost use Rattle.entry_lines.specs.Notices.{AreNoticeTexts};
ghost use Rattle.session_step.specs.PluginEffects.{HasPlace};
ghost use Rattle.core_session.specs.PluginMade.{IsPluginPrepared};
ghost use Rattle.session_step.specs.Accepted.{is_of_plugin};
ghost use Rattle.session_step.specs.Session.{named_view, session_of, views_of};
ghost use Rattle.core_session.specs.Kept.{IsOfJournal, IsOpen, StandBy, ending, has_closing, plugin_entry, reply_if, reserved, stage_if, stage_of, with_sent};
ghost use Rattle.core_session.specs.Notes.{AreToldOf};
ghost use Rattle.core_session.specs.Shelves.{asks_as, asks_shelf};
ghost use Rattle.core_session.specs.Grown.{IsGrown};
ghost use Rattle.core_session.specs.Serves.{Serves, outcome_in, refusal_in};
ghost use Rattle.core_session.specs.Answers.{Answers};
ghost use Rattle.core_session.specs.InnerObject.{PutsIn, ServesCommand};
ghost use Rattle.xi_plain.specs.declared.ask.Ask.TheVariants as Ask;
ghost use Rattle.xi_plain.specs.declared.ask.Query.TheVariants as Query;

use crate::made::put_if;
use crate::plugin_made::{PluginMade, PluginPrepared, plugin_command};
use crate::prepare::{Prepared, prepare};
use crate::stage::Stage;
use crate::telling::{EntryNews, lines_of, stop_lines};
use crate::write::write_piece;
use doc_session::Doc;
use outside::{Shelf, Sink};
use plain_text::{List, NoMemory, Text, Texts};
use plugin_wire::ask_of;
use session_step::{FIRST_CONFIG, Opened, Terms, place_of, put_views};
use span_styles::StyleTable;
use std::alloc::Global;
use std::mem;
use xi_plain::{Act, Answer, Command, Config, Entry, Id, Reply, ShelfNote};

/// A session with its journal and what plugins are told of it, the views that are open in the order of their openings, the styles in the order
/// of their first uses, the plugins whose sessions have ended, how many views were opened, its configuration, the shelf of its files and the
/// sink that it writes to. There is always room for its closing entry.
#[derive(Drop)]
pub struct Core<K, H> {
    journal: Vec<Entry>,
    /// The lines that tell plugins of each entry, beside it.
    told: Vec<EntryNews>,
    /// Those of the closing entry, until it stands.
    stop: Texts,
    views: List<Opened>,
    styles: StyleTable,
    ended: List<u32>,
    opened: u64,
    config: Config,
    stage: Stage,
    terms: Terms,
    shelf: H,
    sink: K,
    alloc: Global,
    ghost legal: { IsLegal terms.plugins journal.items },
    ghost staged: { stage ≡ stage_of journal.items },
    ghost room: { vec_len journal + reserved stage ≤ vec_capacity journal },
    ghost told_room: { vec_len told + reserved stage ≤ vec_capacity told },
    ghost limit: { terms.limit ≤ 2 ^ 60 },
    ghost are_told: { ∥ AreToldOf terms journal.items told.items ∥₁ },
    ghost stops: { ∥ StandBy stage stop ∥₁ },
    ghost kept: { ∥ IsOfJournal terms views styles ended opened config journal.items ∥₁ },
}

impl<K: Sink, H: Shelf> Core<K, H> {
    ghost use Rattle.core_session.specs.Core.{IsDocOf, journal_of, shelf_of, sink_of, terms_of};
    ghost use Rattle.session_step.specs.declared.terms.Terms.{Terms};
    ghost use Rattle.core_session.specs.InnerSession.{IsPrepared};
    ghost use Rattle.core_session.specs.Object.{state_of};

    /// A session without entries, with so many plugins, and a limit of characters that may be inserted into each document. For want of memory
    /// the sink and the shelf are given back.
    pub fn make(
        alloc: Global,
        sink: K,
        shelf: H,
        plugins: u32,
        limit: u64,
    ) -> Result<Core<K, H>, (K, H)>
        requires limit { limit ≤ 2 ^ 60 }
        ensures terms { IfOk result (λ core. terms_of core ≡ record { plugins = plugins; limit = limit }) }
        ensures empty { IfOk result (λ core. journal_of core ≡ []) }
        ensures sink { IfOk result (λ core. sink_of core ≡ sink) }
        ensures shelf { IfOk result (λ core. shelf_of core ≡ shelf) }
        ensures back { IfErr result (λ back. (back.0 ≡ sink) × (back.1 ≡ shelf)) }
    {
        match first_room(alloc) {
            Ok((journal, told, stop)) => Ok(Core {
                journal,
                told,
                stop,
                views: List::new(alloc),
                styles: StyleTable::new(alloc),
                ended: List::new(alloc),
                opened: 0,
                config: FIRST_CONFIG,
                stage: Stage::Serves,
                terms: Terms { plugins, limit },
                shelf,
                sink,
                alloc,
            }),
            Err(_) => Err((sink, shelf)),
        }
    }

    /// Takes a line of the front end, with or without its LF, and writes its piece. The shelf is asked before, where the line opens a file or
    /// saves a view. A session that was closed, or has an entry that was not sent, takes none.
    pub fn front_line(&mut self, line: &[u8]) -> Reply
        ensures stays { result ≡ Reply.Closed → self.new ≡ self.old }
        ensures sink { has_entry result ≡ false → sink_of self.new ≡ sink_of self.old }
        ensures shelf { asks_shelf (views_of (terms_of self.old) (journal_of self.old)) (command_of line.now).act ≡ false
            → shelf_of self.new ≡ shelf_of self.old }
        ensures serves { Serves (terms_of self.old) (journal_of self.old) 0 (Ask.FrontLine line.now) result (journal_of self.new) }
        ensures grown { IsGrown (state_of K.held K.faults K.failures H.files H.faults self.old) (state_of K.held K.faults K.failures H.files H.faults self.new) }
    {
        match self.stage {
            Stage::Serves => self.take_line(line),
            Stage::Broken | Stage::Closed => Reply::Closed,
        }
    }

    /// The same of a session that takes lines.
    fn take_line(&mut self, line: &[u8]) -> Reply
        requires { self.old.stage ≡ Stage.Serves }
        ensures sink { has_entry result ≡ false → sink_of self.new ≡ sink_of self.old }
        ensures shelf { asks_shelf (views_of (terms_of self.old) (journal_of self.old)) (command_of line.now).act ≡ false
            → shelf_of self.new ≡ shelf_of self.old }
        ensures serves { Serves (terms_of self.old) (journal_of self.old) 0 (Ask.FrontLine line.now) result (journal_of self.new) }
        ensures grown { IsGrown (state_of K.held K.faults K.failures H.files H.faults self.old) (state_of K.held K.faults K.failures H.files H.faults self.new) }
    {
        if reserve(&mut self.journal, &mut self.told).is_err() {
            return Reply::NoMemory;
        }
        match prepare(
            self.alloc,
            &mut self.shelf,
            self.views.as_slice(),
            self.terms,
            self.ended.as_slice(),
            self.opened,
            self.config,
            line,
        ) {
            Ok(made) => {
                let sent = self.put(made);
                reply_if(Text::new(self.alloc), sent)
            }
            Err(_) => Reply::NoMemory,
        }
    }

    /// Writes the piece, makes the entry, and puts what it changes in place last. Whether it was sent.
    fn put(&mut self, made: Prepared) -> bool
        requires serves { self.old.stage ≡ Stage.Serves }
        requires room { vec_len self.old.journal + 2 ≤ vec_capacity self.old.journal }
        requires told_room { vec_len self.old.told + 2 ≤ vec_capacity self.old.told }
        requires kind { IsOpen (terms_of self.old).plugins made.entry }
        requires asked { asks_as (views_of (terms_of self.old) (journal_of self.old)) made.entry.command.act made.entry.shelf ≡ true }
        requires place { HasPlace self.old.views made.next }
        requires prepared { ∥ IsPrepared self.old.views self.old.styles self.old.ended (session_of (terms_of self.old) (journal_of self.old)) made ∥₁ }
        ensures shelf { shelf_of self.new ≡ shelf_of self.old }
        ensures puts_in { PutsIn (state_of K.held K.faults K.failures H.files H.faults self.old) (state_of K.held K.faults K.failures H.files H.faults self.new) (with_sent made.entry result) }
    {
        let Prepared {
            entry,
            piece,
            told,
            next,
            grown,
            gone,
            opened,
            config,
        } = made;
        let bytes = piece.as_str().as_bytes();
        let taken = write_piece(&mut self.sink, bytes);
        let sent = taken == bytes.len();
        self.journal.push_reserved(with_sent(entry, sent));
        self.told.push_reserved(EntryNews { lines: told });
        put_views(self.alloc, &mut self.views, next);
        put_if(&mut self.styles, grown);
        put_if(&mut self.ended, gone);
        self.opened = opened;
        self.config = config;
        self.stage = stage_if(sent);
        sent
    }

    /// Takes a line of the plugin with this number, with or without its LF. A line that its session refuses is no entry and changes nothing;
    /// its refusal is the text. Else its piece is written, and the text is the line that answers it, empty where none does. A session that was
    /// closed, or has an entry that was not sent, takes none.
    pub fn plugin_line(&mut self, caller: u32, line: &[u8]) -> Reply
        requires caller { (1 ≤ caller) × (caller ≤ (terms_of self.old).plugins) }
        ensures stays { result ≡ Reply.Closed → self.new ≡ self.old }
        ensures sink { has_entry result ≡ false → sink_of self.new ≡ sink_of self.old }
        ensures shelf { shelf_of self.new ≡ shelf_of self.old }
        ensures serves { Serves (terms_of self.old) (journal_of self.old) caller (Ask.PluginLine line.now) result (journal_of self.new) }
        ensures grown { IsGrown (state_of K.held K.faults K.failures H.files H.faults self.old) (state_of K.held K.faults K.failures H.files H.faults self.new) }
    {
        match self.stage {
            Stage::Serves => self.take_plugin_line(caller, line),
            Stage::Broken | Stage::Closed => Reply::Closed,
        }
    }

    /// The same of a session that takes lines.
    fn take_plugin_line(&mut self, caller: u32, line: &[u8]) -> Reply
        requires serves { self.old.stage ≡ Stage.Serves }
        requires caller { (1 ≤ caller) × (caller ≤ (terms_of self.old).plugins) }
        ensures sink { has_entry result ≡ false → sink_of self.new ≡ sink_of self.old }
        ensures shelf { shelf_of self.new ≡ shelf_of self.old }
        ensures serves { ServesCommand (terms_of self.old) (journal_of self.old) caller (ask_of line.now) result (journal_of self.new) }
        ensures grown { IsGrown (state_of K.held K.faults K.failures H.files H.faults self.old) (state_of K.held K.faults K.failures H.files H.faults self.new) }
    {
        match ask_of(self.alloc, line) {
            Ok(command) => self.take_command(caller, command),
            Err(_) => Reply::NoMemory,
        }
    }

    /// Ends the session of the plugin with this number, by an entry that is never refused. In a view that is opened later it has ended too.
    pub fn plugin_end(&mut self, caller: u32) -> Reply
        requires caller { (1 ≤ caller) × (caller ≤ (terms_of self.old).plugins) }
        ensures stays { result ≡ Reply.Closed → self.new ≡ self.old }
        ensures sink { has_entry result ≡ false → sink_of self.new ≡ sink_of self.old }
        ensures shelf { shelf_of self.new ≡ shelf_of self.old }
        ensures serves { Serves (terms_of self.old) (journal_of self.old) caller Ask.PluginEnd result (journal_of self.new) }
        ensures grown { IsGrown (state_of K.held K.faults K.failures H.files H.faults self.old) (state_of K.held K.faults K.failures H.files H.faults self.new) }
    {
        match self.stage {
            Stage::Serves => self.take_command(caller, ending()),
            Stage::Broken | Stage::Closed => Reply::Closed,
        }
    }

    /// What a command of a plugin comes to in a session that takes lines.
    fn take_command(&mut self, caller: u32, command: Command) -> Reply
        requires serves { self.old.stage ≡ Stage.Serves }
        requires caller { (1 ≤ caller) × (caller ≤ (terms_of self.old).plugins) }
        requires fair { IsFairCommand command }
        requires asks { refusal_in (session_of (terms_of self.old) (journal_of self.old)) caller command ≡ None → is_of_plugin command.act ≡ true }
        ensures sink { has_entry result ≡ false → sink_of self.new ≡ sink_of self.old }
        ensures shelf { shelf_of self.new ≡ shelf_of self.old }
        ensures serves { ServesCommand (terms_of self.old) (journal_of self.old) caller command result (journal_of self.new) }
        ensures grown { IsGrown (state_of K.held K.faults K.failures H.files H.faults self.old) (state_of K.held K.faults K.failures H.files H.faults self.new) }
    {
        if reserve(&mut self.journal, &mut self.told).is_err() {
            return Reply::NoMemory;
        }
        match plugin_command(
            self.alloc,
            self.views.as_slice(),
            &self.styles,
            self.ended.as_slice(),
            caller,
            command,
        ) {
            Ok(PluginMade::Refused(line)) => Reply::Refused(line),
            Ok(PluginMade::Taken(made)) => self.put_of_plugin(caller, made),
            Err(_) => Reply::NoMemory,
        }
    }

    /// Puts in what a command of a plugin comes to that is taken.
    fn put_of_plugin(&mut self, caller: u32, made: PluginPrepared) -> Reply
        requires serves { self.old.stage ≡ Stage.Serves }
        requires room { vec_len self.old.journal + 2 ≤ vec_capacity self.old.journal }
        requires told_room { vec_len self.old.told + 2 ≤ vec_capacity self.old.told }
        requires caller { (1 ≤ caller) × (caller ≤ (terms_of self.old).plugins) }
        requires asks { is_of_plugin made.command.act ≡ true }
        requires place { HasPlace self.old.views made.next }
        requires prepared { ∥ (refusal_in (session_of (terms_of self.old) (journal_of self.old)) caller made.command ≡ None)
            × IsPluginPrepared self.old.views self.old.styles self.old.ended caller made.command
            (outcome_in (session_of (terms_of self.old) (journal_of self.old)) caller made.command) made ∥₁ }
        ensures entry { has_entry result ≡ true }
        ensures shelf { shelf_of self.new ≡ shelf_of self.old }
        ensures serves { ServesCommand (terms_of self.old) (journal_of self.old) caller made.command result (journal_of self.new) }
        ensures grown { IsGrown (state_of K.held K.faults K.failures H.files H.faults self.old) (state_of K.held K.faults K.failures H.files H.faults self.new) }
    {
        let PluginPrepared {
            command,
            answer,
            piece,
            told,
            next,
            grown,
            gone,
        } = made;
        let sent = self.put(Prepared {
            entry: plugin_entry(caller, command),
            piece,
            told,
            next,
            grown,
            gone,
            opened: self.opened,
            config: self.config,
        });
        reply_if(answer, sent)
    }

    /// The lines that tell what happened from the entry at this place on, which all plugins are told alike. The cost is that of the lines.
    pub fn notices(&self, _caller: u32, from: u64) -> Answer
        requires { from ≤ length (journal_of self.now) }
        ensures { Answers (terms_of self.now) (journal_of self.now) (Query.Notices from) result }
    {
        let len = self.len();
        if from == len {
            return Answer::Nothing { len };
        }
        let over = self.is_closed();
        match lines_of(self.alloc, &self.told[from as usize..]) {
            Ok(lines) => Answer::Notices {
                lines,
                next: len,
                over,
            },
            Err(_) => Answer::NoMemory,
        }
    }

    /// How many entries there are.
    pub fn len(&self) -> u64
        ensures { result ≡ length (journal_of self.now) }
    {
        self.journal.len() as u64
    }

    // Whether the journal has its closing entry.
    fn is_closed(&self) -> bool
        ensures { result ≡ has_closing (journal_of self.now) }
    {
        match self.stage {
            Stage::Closed => true,
            Stage::Serves | Stage::Broken => false,
        }
    }

    /// The entries so far, to look at.
    pub fn journal(&self) -> &[Entry]
        ensures { result.now ≡ journal_of self.now }
    {
        &self.journal
    }

    /// The sink, to look at.
    pub fn sink(&self) -> &K
        ensures { result.now ≡ sink_of self.now }
    {
        &self.sink
    }

    /// The document of the view with this id, to look at, where it is open: it is that of the journal so far.
    pub fn doc(&self, view: &Text) -> Option<&Doc>
        ensures absent { (result ≡ None) ↔ (named_view (views_of (terms_of self.now) (journal_of self.now)) view.now ≡ None) }
        ensures stands { IfSome result (λ doc. ∥ IsDocOf doc.now (named_view (views_of (terms_of self.now) (journal_of self.now)) view.now) ∥₁) }
    {
        let held = self.views.as_slice();
        match place_of(held, view) {
            Some(at) => Some(&held[at].doc),
            None => None,
        }
    }

    /// Puts in the closing entry, which takes no memory and writes nothing, unless there is one.
    pub fn close_down(&mut self) -> Reply
        ensures stays { result ≡ Reply.Closed → self.new ≡ self.old }
        ensures sink { sink_of self.new ≡ sink_of self.old }
        ensures shelf { shelf_of self.new ≡ shelf_of self.old }
        ensures serves { Serves (terms_of self.old) (journal_of self.old) 0 Ask.CloseDown result (journal_of self.new) }
        ensures grown { IsGrown (state_of K.held K.faults K.failures H.files H.faults self.old) (state_of K.held K.faults K.failures H.files H.faults self.new) }
    {
        match self.stage {
            Stage::Closed => Reply::Closed,
            Stage::Serves | Stage::Broken => {
                let lines = mem::replace(&mut self.stop, List::new(self.alloc));
                self.journal.push_reserved(closing());
                self.told.push_reserved(EntryNews { lines });
                self.stage = Stage::Closed;
                Reply::Taken(Text::new(self.alloc))
            }
        }
    }

    /// The journal, the sink and the shelf.
    pub fn into_parts(self) -> (Vec<Entry>, K, H)
        ensures journal { result.0.items ≡ journal_of self }
        ensures sink { result.1 ≡ sink_of self }
        ensures shelf { result.2 ≡ shelf_of self }
    {
        let Core {
            journal,
            told,
            stop,
            views,
            styles,
            ended,
            opened: _,
            config: _,
            stage: _,
            terms: _,
            shelf,
            sink,
            alloc: _,
        } = self;
        drop((told, stop));
        drop((views, ended));
        drop(styles);
        (journal, sink, shelf)
    }
}

/// The journal and what plugins are told of it, with room for the closing entry, and the lines of that.
fn first_room(alloc: Global) -> Result<(Vec<Entry>, Vec<EntryNews>, Texts), NoMemory>
    ensures journal { IfOk result (λ made. (made.0.items ≡ []) × (1 ≤ vec_capacity made.0)) }
    ensures told { IfOk result (λ made. (made.1.items ≡ []) × (1 ≤ vec_capacity made.1)) }
    ensures stop { IfOk result (λ made. AreNoticeTexts (stopped ∷ []) made.2) }
{
    let stop = stop_lines(alloc)?;
    let journal = Vec::with_capacity(alloc, 1)?;
    let told = Vec::with_capacity(alloc, 1)?;
    Ok((journal, told, stop))
}

/// Takes the memory for two entries more: that of a line, and the closing one.
fn reserve(journal: &mut Vec<Entry>, told: &mut Vec<EntryNews>) -> Result<(), NoMemory>
    ensures journal { journal.new.items ≡ journal.old.items }
    ensures told { told.new.items ≡ told.old.items }
    ensures journal_stays { vec_capacity journal.old ≤ vec_capacity journal.new }
    ensures told_stays { vec_capacity told.old ≤ vec_capacity told.new }
    ensures journal_room { OnOk result (vec_len journal.new + 2 ≤ vec_capacity journal.new) }
    ensures told_room { OnOk result (vec_len told.new + 2 ≤ vec_capacity told.new) }
{
    journal.reserve(2)?;
    told.reserve(2)?;
    Ok(())
}

/// The entry of a command of a plugin, where it is sent.
fn plugin_entry(caller: u32, command: Command) -> Entry
    ensures { result ≡ plugin_entry caller command true }
{
    Entry {
        caller,
        command,
        shelf: ShelfNote::NoCall,
        sent: true,
    }
}

/// The same entry, by whether it was sent.
fn with_sent(entry: Entry, sent: bool) -> Entry
    ensures { result ≡ with_sent entry sent }
{
    let Entry {
        caller,
        command,
        shelf,
        sent: _,
    } = entry;
    Entry {
        caller,
        command,
        shelf,
        sent,
    }
}

/// How a session stands after an entry of a line, which was sent or not.
fn stage_if(sent: bool) -> Stage
    ensures { result ≡ stage_if sent }
{
    if sent { Stage::Serves } else { Stage::Broken }
}

/// What comes then of a line that is answered so.
fn reply_if(answer: Text, sent: bool) -> Reply
    ensures { result ≡ reply_if answer sent }
{
    if sent {
        Reply::Taken(answer)
    } else {
        Reply::SinkFault
    }
}

/// The command that ends a plugin's session.
fn ending() -> Command
    ensures { result ≡ ending }
{
    Command {
        id: Id::NoId,
        act: Act::Ended,
    }
}

fn closing() -> Entry
    ensures { result ≡ closing_entry }
{
    Entry {
        caller: 0,
        command: Command {
            id: Id::NoId,
            act: Act::Closing,
        },
        shelf: ShelfNote::NoCall,
        sent: true,
    }
}
