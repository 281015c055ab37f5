ghost use Rattle.std.specs.Prelude.{◌<◌, ◌≤◌, ◌^◌, IfOk};
ghost use Rattle.doc_session.specs.Document.{Document};
ghost use Rattle.doc_session.specs.declared.event.Event.TheVariants.{Ended};
ghost use Rattle.doc_session.specs.Stands.{DocStandsFor};
ghost use Rattle.doc_session.specs.Step.{event_step};
ghost use Rattle.session_step.specs.Session.{opened_document};
ghost use Rattle.session_step.specs.Views.{AreOfPlugins, HasSession, TakesEvents};

use crate::after::after_alone;
use crate::terms::Terms;
use doc_session::{Doc, Event};
use plain_text::{NoMemory, Text};
use std::alloc::Global;
use xi_plain::Config;

/// The document of a view that is opened on a text, in which the sessions of these plugins have ended, since they ended before.
pub fn opened_doc(
    alloc: Global,
    text: Text,
    terms: Terms,
    ended: &[u32],
    config: Config,
) -> Result<Doc, NoMemory>
    requires tab { 0 < config.tab }
    requires limit { terms.limit ≤ 2 ^ 60 }
    requires ended { AreOfPlugins terms.plugins ended.now }
    ensures stands { IfOk result (λ doc. DocStandsFor doc (opened_document terms ended.now config text)) }
    ensures takes { IfOk result TakesEvents }
{
    let mut doc = Doc::of_text(alloc, text, terms.plugins, terms.limit, config)?;
    for caller in ended {
        doc = without_session(alloc, &doc, *caller)?;
    }
    Ok(doc)
}

/// The document once the session of this plugin has ended in it.
fn without_session(alloc: Global, doc: &Doc, caller: u32) -> Result<Doc, NoMemory>
    requires takes { TakesEvents doc.now }
    requires session { HasSession caller doc.now }
    ensures { (plain : Document) → DocStandsFor doc.now plain → IfOk result (λ next. DocStandsFor next (event_step plain (Ended caller)).document) }
{
    match after_alone(alloc, doc, Event::Ended { caller }) {
        Ok((next, effects)) => {
            drop(effects);
            Ok(next)
        }
        Err(_) => Err(NoMemory),
    }
}
