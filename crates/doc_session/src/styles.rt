// What plugins say of the styles of characters, in a document.
ghost use Rattle.std.specs.Prelude.{◌≡◌, ◌≤◌, length, None, IfOk, IfErr, OnOk};
ghost use Rattle.stale_spans.specs.Places.{StandIn};
ghost use Rattle.doc_text.specs.Asking.{range_refusal};
ghost use Rattle.doc_text.specs.Fault.{DocRefuses};
ghost use Rattle.doc_session.specs.Document.{Document};
ghost use Rattle.doc_session.specs.Inner.{IsStepOf};
ghost use Rattle.doc_session.specs.Stands.{DocStandsFor};
ghost use Rattle.doc_session.specs.Step.{spans_step};

use crate::doc::{Doc, document_of};
use crate::event::{Body, Effects};
use crate::said::Said;
use doc_text::DocFault;
use doc_view::{NO_REQUEST, Scrolling, TextLeft};
use plain_text::NoMemory;
use stale_spans::{AskedSpans, with_spans};
use std::alloc::Global;

impl Doc {
    /// A plugin says styles of a text that it has read.
    pub(crate) fn styled(
        &self,
        alloc: Global,
        caller: u32,
        asked: &AskedSpans,
    ) -> Result<(Doc, Effects), DocFault>
        requires caller { (1 ≤ caller) × (caller ≤ length self.now.text.sessions) }
        requires within { StandIn asked.now.len asked.now.spans }
        ensures stepped { IsStepOf self.now (λ plain. spans_step plain caller asked.now) result }
        ensures accepted { (plain : Document) → DocStandsFor self.now plain
            → OnOk result (range_refusal plain.text.history asked.now ≡ None) }
        ensures refused { (plain : Document) → DocStandsFor self.now plain
            → IfErr result (DocRefuses (range_refusal plain.text.history asked.now)) }
        ensures sessions { IfOk result (λ made. made.0.text.sessions ≡ self.now.text.sessions) }
    {
        let read = self.text.read_at(alloc, asked.rev)?;
        let layers = with_spans(alloc, &read, self.view.layers(), caller - 1, asked)?;
        let view = self.view.with_layers(alloc, layers)?;
        let text = self.text.copy(alloc)?;
        let next = document_of(text, view);
        let said = Said {
            text: TextLeft::Styled,
            request: NO_REQUEST,
            body: Body::Null,
            scrolling: Scrolling::Nowhere,
            notice: None,
        };
        Ok(self.told(alloc, next, said)?)
    }
}
