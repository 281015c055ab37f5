// What is read of a text: of a revision, where a plugin styles it or asks for a chunk of it, and of the head how many lines it has.
ghost use Rattle.std.specs.Prelude.{◌≡◌, ◌^◌, ◌<◌, length, None, IfOk, IfErr, OnOk};
ghost use Rattle.plain_text.specs.Lines.{logical_lines};
ghost use Rattle.plain_edits.specs.EditFault.{Refuses};
ghost use Rattle.plain_edits.specs.History.{History, text_at};
ghost use Rattle.span_styles.specs.Layers.{length_after};
ghost use Rattle.stale_spans.specs.Read.{IsEdit, IsReadAt};
ghost use Rattle.rev_engine.specs.Engine.{StandsFor};
ghost use Rattle.xi_plain.specs.Chunk.{chunk_at};
ghost use Rattle.doc_text.specs.Asking.{acknowledgement_refusal, reading_refusal};
ghost use Rattle.doc_text.specs.Fault.{DocRefuses};
ghost use Rattle.doc_text.specs.InMemory.{head_shown, text_in};
ghost use Rattle.doc_text.specs.Inner.{StandsForSome};
ghost use Rattle.doc_text.specs.Stands.{TextStandsFor};
ghost use Rattle.doc_text.specs.Writing.{Writing, head_text};

use crate::chunk::{chunk_of, line_count};
use crate::fault::DocFault;
use crate::text::TextState;
use plain_edits::EditFault;
use plain_text::Text;
use rev_engine::Engine;
use rope_tree::Rope;
use stale_spans::{Misplaced, Read, gap_at};
use std::alloc::Global;

impl TextState {
    /// The text of a revision and the edit since then. It costs what `Engine::since` does, and where the revision is not the head what
    /// `Engine::rope_at` does too: at the head no text is walked over.
    pub fn read_at(&self, alloc: Global, rev: u64) -> Result<Read, EditFault>
        ensures read { (plain : Writing) → TextStandsFor self.now plain → IfOk result (IsReadAt plain.history rev) }
        ensures edit { IfOk result IsEdit }
        ensures leads { IfOk result (λ read. length_after read.units ≡ length (text_in self.now)) }
        ensures accepted { (plain : Writing) → TextStandsFor self.now plain
            → OnOk result (acknowledgement_refusal plain.history rev ≡ None) }
        ensures refused { (plain : Writing) → TextStandsFor self.now plain
            → IfErr result (Refuses (acknowledgement_refusal plain.history rev)) }
    {
        read_engine(alloc, &self.engine, rev)
    }

    /// The longest text from a place of a revision's text that takes at most `max` bytes, and no more than 2^20. At the head it costs what it
    /// gives and twice the height of the text; an older revision costs what `Engine::rope_at` does besides.
    pub fn chunk(&self, alloc: Global, rev: u64, start: u64, max: u64) -> Result<Text, DocFault>
        ensures chunk { (plain : Writing) → TextStandsFor self.now plain
            → IfOk result (λ text. text ≡ chunk_at (text_at plain.history rev) start max) }
        ensures accepted { (plain : Writing) → TextStandsFor self.now plain
            → OnOk result (reading_refusal plain.history rev start ≡ None) }
        ensures refused { (plain : Writing) → TextStandsFor self.now plain
            → IfErr result (DocRefuses (reading_refusal plain.history rev start)) }
    {
        let text = rope_of(alloc, &self.engine, rev)?;
        let Some(gap) = gap_at(&text, start) else {
            return Err(DocFault::BadParams(Misplaced::Start));
        };
        Ok(chunk_of(alloc, &text, start, gap, max)?)
    }

    /// How many logical lines the head text has, in O(1).
    pub fn line_count(&self) -> u64
        requires { length (logical_lines (text_in self.now)) < 2 ^ 64 }
        ensures { (plain : Writing) → TextStandsFor self.now plain → result ≡ length (logical_lines (head_text plain)) }
    {
        line_count(self.head_rope())
    }
}

// The text of a revision of an engine, and the edit since then.
fn read_engine(alloc: Global, engine: &Engine, rev: u64) -> Result<Read, EditFault>
    requires { StandsForSome engine.now }
    ensures read { (history : History) → StandsFor engine.now history → IfOk result (IsReadAt history rev) }
    ensures edit { IfOk result IsEdit }
    ensures leads { IfOk result (λ read. length_after read.units ≡ length (head_shown engine.now)) }
    ensures accepted { (history : History) → StandsFor engine.now history
        → OnOk result (acknowledgement_refusal history rev ≡ None) }
    ensures refused { (history : History) → StandsFor engine.now history
        → IfErr result (Refuses (acknowledgement_refusal history rev)) }
{
    let units = engine.since(alloc, rev)?;
    let text = rope_of(alloc, engine, rev)?;
    let _shown = engine.head_rope().len();
    Ok(Read { text, units })
}

// What a revision of an engine shows.
fn rope_of(alloc: Global, engine: &Engine, rev: u64) -> Result<Rope, EditFault>
    ensures text { (history : History) → StandsFor engine.now history → IfOk result (λ text. text ≡ text_at history rev) }
    ensures accepted { (history : History) → StandsFor engine.now history
        → OnOk result (acknowledgement_refusal history rev ≡ None) }
    ensures refused { (history : History) → StandsFor engine.now history
        → IfErr result (Refuses (acknowledgement_refusal history rev)) }
{
    Ok(engine.rope_at(alloc, rev)?)
}
