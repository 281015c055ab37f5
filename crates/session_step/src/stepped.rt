ghost use Rattle.std.specs.Prelude.{◌≡◌, ◌++◌, ◌∷◌, [], IfOk, IsTrue, OnOk, length};
ghost use Rattle.std.specs.Arc.{arc_value};
ghost use Rattle.doc_session.specs.Document.{Document};
ghost use Rattle.doc_session.specs.Stands.{DocStandsFor};
ghost use Rattle.doc_session.specs.Step.{IsEventFor, event_step, silent_step};
ghost use Rattle.session_step.specs.InnerStep.{MayTell, TakesSteps, each_event};
ghost use Rattle.session_step.specs.Views.{IsPutBehind, MayBeAsked, TakesEvents};
ghost use Rattle.session_step.specs.Session.{updates_for};

use crate::after::after_alone;
use crate::opened::Opened;
use doc_session::{Doc, Effects, Event};
use plain_screen::Update;
use plain_text::{List, NoMemory, Text, TryClone};
use std::alloc::Global;
use std::sync::Arc;
use view_update::ViewUpdate;
use xi_plain::Config;

/// What each document is told that is none of its own.
#[derive(Clone, Copy)]
pub enum ToEach {
    /// A line of the front end.
    Other,
    /// Texts are laid out and edited so from then on.
    Config(Config),
    /// The session of the plugin with this number has ended.
    Ended(u32),
}

/// The views after their steps, in their order, and the updates that these tell the front end.
#[derive(Drop)]
pub struct Stepped {
    pub held: List<Opened>,
    pub updates: List<ViewUpdate>,
}

impl Stepped {
    pub fn new(alloc: Global) -> Stepped
        ensures { result ≡ record { held = []; updates = [] } }
    {
        Stepped {
            held: List::new(alloc),
            updates: List::new(alloc),
        }
    }

    /// Puts a view behind those that are there, with what its step told.
    pub fn push(
        &mut self,
        alloc: Global,
        id: &Text,
        doc: Doc,
        update: Option<Update>,
    ) -> Result<(), NoMemory>
        ensures held { OnOk result (IsPutBehind self.old.held id.now doc self.new.held) }
        ensures updates { OnOk result (self.new.updates ≡ self.old.updates ++ updates_for id.now update) }
    {
        let copy = id.copy(alloc)?;
        let doc = Arc::new(alloc, doc)?;
        tell(&mut self.updates, alloc, id, update)?;
        self.held.push(Opened { id: copy, doc })
    }

    /// Each of these views takes its step at an event that no document refuses.
    pub fn take(&mut self, alloc: Global, held: &[Opened], told: ToEach) -> Result<(), NoMemory>
        requires asked { MayBeAsked held.now }
        requires may { MayTell told held.now }
        ensures { OnOk result (TakesSteps told self.old held.now self.new) }
    {
        for kept in held {
            self.take_one(alloc, kept, told)?;
        }
        Ok(())
    }

    /// The same of one view, which is put behind those that are there.
    pub fn take_one(&mut self, alloc: Global, kept: &Opened, told: ToEach) -> Result<(), NoMemory>
        requires takes { TakesEvents (arc_value kept.now.doc) }
        requires may { IsEventFor (length (arc_value kept.now.doc).text.sessions) (each_event told) }
        ensures { OnOk result (TakesSteps told self.old (kept.now ∷ []) self.new) }
    {
        if stays_at(&kept.doc, told) {
            self.share(alloc, kept)
        } else {
            self.push_after(alloc, kept, told)
        }
    }

    /// Puts a view behind those that are there as it is, with its document shared.
    fn share(&mut self, alloc: Global, kept: &Opened) -> Result<(), NoMemory>
        ensures held { OnOk result (IsPutBehind self.old.held kept.now.id (arc_value kept.now.doc) self.new.held) }
        ensures updates { OnOk result (self.new.updates ≡ self.old.updates) }
    {
        let id = kept.id.copy(alloc)?;
        let doc = Arc::try_clone(&kept.doc)?;
        self.held.push(Opened { id, doc })
    }

    /// Puts a view behind those that are there, after its step.
    fn push_after(&mut self, alloc: Global, kept: &Opened, told: ToEach) -> Result<(), NoMemory>
        requires takes { TakesEvents (arc_value kept.now.doc) }
        requires may { IsEventFor (length (arc_value kept.now.doc).text.sessions) (each_event told) }
        ensures { OnOk result (TakesSteps told self.old (kept.now ∷ []) self.new) }
    {
        match after_alone(alloc, &kept.doc, event_of(told)) {
            Ok((next, effects)) => self.push(alloc, &kept.id, next, update_of(effects)),
            Err(_) => Err(NoMemory),
        }
    }
}

/// Whether what each document is told leaves this one as it is, and nobody is told anything of it.
fn stays_at(doc: &Doc, told: ToEach) -> bool
    ensures { IsTrue result → (plain : Document) → DocStandsFor doc.now plain
        → event_step plain (each_event told) ≡ silent_step plain }
{
    match told {
        ToEach::Other => doc.rests(),
        ToEach::Config(_) | ToEach::Ended(_) => false,
    }
}

/// The update of the view with this id, where there is one.
pub fn updates_of(
    alloc: Global,
    id: &Text,
    update: Option<Update>,
) -> Result<List<ViewUpdate>, NoMemory>
    ensures { IfOk result (λ updates. updates ≡ updates_for id.now update) }
{
    let mut updates = List::new(alloc);
    tell(&mut updates, alloc, id, update)?;
    Ok(updates)
}

/// Puts an update of the view with this id behind those that are there, where there is one.
fn tell(
    updates: &mut List<ViewUpdate>,
    alloc: Global,
    id: &Text,
    update: Option<Update>,
) -> Result<(), NoMemory>
    ensures { OnOk result (updates.new ≡ updates.old ++ updates_for id.now update) }
{
    match update {
        Some(update) => {
            let view = id.copy(alloc)?;
            updates.push(ViewUpdate { view, update })
        }
        None => Ok(()),
    }
}

fn update_of(effects: Effects) -> Option<Update>
    ensures { result ≡ effects.update }
{
    let Effects {
        body,
        update,
        scroll: _,
        notice,
    } = effects;
    drop((body, notice));
    update
}

fn event_of(told: ToEach) -> Event
    ensures { result ≡ each_event told }
{
    match told {
        ToEach::Other => Event::Other,
        ToEach::Config(config) => Event::Config(config),
        ToEach::Ended(caller) => Event::Ended { caller },
    }
}
