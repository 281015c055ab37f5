ghost use Rattle.std.specs.Prelude.{◌≡◌, ◌<◌, length};
ghost use Rattle.doc_session.specs.Step.{IsEventFor};
ghost use Rattle.session_step.specs.InnerStep.{IsMade};
ghost use Rattle.session_step.specs.Views.{TakesEvents};

use doc_session::{Doc, DocFault, Effects, Event};
use plain_text::Steps;
use std::alloc::Global;
use std::marker::Brand;
use std::sync::ledger::{Blank, Ledger};

/// The document after an event, whose steps nobody counts.
pub fn after_alone(alloc: Global, doc: &Doc, event: Event) -> Result<(Doc, Effects), DocFault>
    requires takes { TakesEvents doc.now }
    requires event { IsEventFor (length doc.now.text.sessions) event }
    ensures { IsMade doc.now event result }
{
    counted::<Brand>(alloc, doc, event, Blank::new(1))
}

fn counted<L: Ledger>(
    alloc: Global,
    doc: &Doc,
    event: Event,
    blank: Blank,
) -> Result<(Doc, Effects), DocFault>
    requires blank { (blank.name ≡ L.name) × ((blank.parts ≡ L.parts) × (0 < blank.parts)) }
    requires takes { TakesEvents doc.now }
    requires event { IsEventFor (length doc.now.text.sessions) event }
    ensures { IsMade doc.now event result }
{
    let mut steps = Steps::<L>::new(blank);
    doc.after(alloc, event, &mut steps)
}
