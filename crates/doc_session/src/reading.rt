// What plugins ask of a text: a chunk of a revision, and how many lines the head has. The document is the same then.
ghost use Rattle.std.specs.Prelude.{◌≡◌, None, IfOk, IfErr, OnOk};
ghost use Rattle.doc_text.specs.Asking.{reading_refusal};
ghost use Rattle.doc_text.specs.Fault.{DocRefuses};
ghost use Rattle.doc_session.specs.Document.{Document};
ghost use Rattle.doc_session.specs.Inner.{IsStepOf};
ghost use Rattle.doc_session.specs.Stands.{DocStandsFor};
ghost use Rattle.doc_session.specs.Step.{answered_step, count_step, read_step};

use crate::doc::Doc;
use crate::event::{Body, Effects};
use doc_text::DocFault;
use plain_text::NoMemory;
use std::alloc::Global;

impl Doc {
    /// A plugin reads the text of a revision from this offset on.
    pub(crate) fn read(
        &self,
        alloc: Global,
        rev: u64,
        start: u64,
        max: u64,
    ) -> Result<(Doc, Effects), DocFault>
        ensures stepped { IsStepOf self.now (λ plain. read_step plain rev start max) result }
        ensures accepted { (plain : Document) → DocStandsFor self.now plain
            → OnOk result (reading_refusal plain.text.history rev start ≡ None) }
        ensures refused { (plain : Document) → DocStandsFor self.now plain
            → IfErr result (DocRefuses (reading_refusal plain.text.history rev start)) }
        ensures sessions { IfOk result (λ made. made.0.text.sessions ≡ self.now.text.sessions) }
    {
        let text = self.text.chunk(alloc, rev, start, max)?;
        let body = Body::Chunk {
            text,
            offset: start,
        };
        Ok(self.answered(alloc, body)?)
    }

    /// A plugin asks how many lines the head text has.
    pub(crate) fn count(&self, alloc: Global) -> Result<(Doc, Effects), NoMemory>
        ensures stepped { IsStepOf self.now count_step result }
        ensures sessions { IfOk result (λ made. made.0.text.sessions ≡ self.now.text.sessions) }
    {
        // 64 bits count the lines of the layout, of which there are as many at least.
        let _layout = self.view.lines();
        let lines = self.text.line_count();
        self.answered(alloc, Body::Lines(lines))
    }

    // What is only asked is answered so.
    fn answered(&self, alloc: Global, body: Body) -> Result<(Doc, Effects), NoMemory>
        ensures stepped { IsStepOf self.now (λ plain. answered_step plain body) result }
        ensures sessions { IfOk result (λ made. made.0.text.sessions ≡ self.now.text.sessions) }
    {
        let text = self.text.copy(alloc)?;
        self.silent(text, body)
    }
}
