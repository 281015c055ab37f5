// What an edit makes of an engine, on a copy of it.
ghost use Rattle.std.specs.Prelude.{◌≡◌, ◌^◌, ◌<◌, ◌≤◌, [], ◌∷◌, None, IfOk, IfErr, OnOk, length};
ghost use Rattle.std.specs.Arc.{arc_value};
ghost use Rattle.plain_edits.specs.Edits.{edit_refusal, undid};
ghost use Rattle.plain_edits.specs.History.{History, inserted_count};
ghost use Rattle.plain_edits.specs.UnitDelta.{IsCanonical};
ghost use Rattle.rev_list.specs.Edit.{undone_by};
ghost use Rattle.rev_engine.specs.Asked.{MayAskUndo};
ghost use Rattle.rev_undo.specs.Under.{AgreesOnCollected};
ghost use Rattle.rev_engine.specs.Engine.{IsChange, IsSaidBy, StandsFor, asked_by};
ghost use Rattle.rev_engine.specs.Given.{AskedEdit, MayAsk};
ghost use Rattle.doc_text.specs.Fault.{DocRefuses};
ghost use Rattle.doc_text.specs.Refusal.{edit_refused};
ghost use Rattle.doc_text.specs.InMemory.{head_shown};
ghost use Rattle.doc_text.specs.Inner.{IsAfter, IsAfterEdit, IsSaidOfSome, IsShared, IsStepFrom, StandsForSome};

use crate::fault::DocFault;
use plain_text::NoMemory;
use rev_engine::{Change, Edit, Engine, UndoFault, UnitEdit};
use std::alloc::Global;
use std::sync::Arc;

/// What an edit makes: the engine with it, and the change of the head text.
#[derive(Drop)]
pub(crate) struct EngineStep {
    pub(crate) engine: Arc<Engine, Global>,
    pub(crate) change: Change,
}

/// Takes an edit.
pub(crate) fn step_by_edit(
    alloc: Global,
    engine: &Arc<Engine, Global>,
    edit: &Edit,
) -> Result<EngineStep, DocFault>
    requires may { MayAsk (arc_value engine.now).revisions edit.now.group }
    requires some { StandsForSome (arc_value engine.now) }
    ensures taken { (history : History) → StandsFor (arc_value engine.now) history → IfOk result (IsAfterEdit history (asked_by edit.now)) }
    ensures made { IfOk result (IsStepFrom (arc_value engine.now)) }
    ensures accepted { (history : History) → StandsFor (arc_value engine.now) history
        → OnOk result (edit_refusal history (arc_value engine.now).limit edit.now.rev edit.now.delta ≡ None) }
    ensures refused { (history : History) → StandsFor (arc_value engine.now) history
        → IfErr result (DocRefuses (edit_refused (edit_refusal history (arc_value engine.now).limit edit.now.rev edit.now.delta))) }
{
    let mut next = engine.copy(alloc)?;
    let change = next.edit(alloc, edit)?;
    Ok(shared_step(alloc, next, change)?)
}

/// Takes an edit of the head text, in characters.
pub(crate) fn step_at_head(
    alloc: Global,
    engine: &Arc<Engine, Global>,
    edit: UnitEdit,
) -> Result<EngineStep, DocFault>
    requires may { MayAsk (arc_value engine.now).revisions edit.group }
    requires canonical { IsCanonical edit.units }
    requires base { edit.units.base ≡ length (head_shown (arc_value engine.now)) }
    requires some { IsSaidOfSome (arc_value engine.now) edit }
    ensures taken { (history : History) (asked : AskedEdit) → StandsFor (arc_value engine.now) history → IsSaidBy history edit asked
        → IfOk result (IsAfterEdit history asked) }
    ensures made { IfOk result (IsStepFrom (arc_value engine.now)) }
    ensures accepted { (history : History) (asked : AskedEdit) → StandsFor (arc_value engine.now) history → IsSaidBy history edit asked
        → OnOk result (edit_refusal history (arc_value engine.now).limit asked.base asked.delta ≡ None) }
    ensures refused { (history : History) (asked : AskedEdit) → StandsFor (arc_value engine.now) history → IsSaidBy history edit asked
        → IfErr result (DocRefuses (edit_refused (edit_refusal history (arc_value engine.now).limit asked.base asked.delta))) }
{
    let mut next = engine.copy(alloc)?;
    let change = next.edit_head(alloc, edit)?;
    Ok(shared_step(alloc, next, change)?)
}

/// Undoes a group, or gives it back where it is undone. No group may be collected at which that would differ from the head.
pub(crate) fn step_by_turn(
    alloc: Global,
    engine: &Arc<Engine, Global>,
    group: u64,
) -> Result<EngineStep, NoMemory>
    requires may { MayAskUndo (arc_value engine.now).revisions (undone_by (arc_value engine.now).revisions (group ∷ [])) }
    requires agrees { AgreesOnCollected (arc_value engine.now).revisions (undone_by (arc_value engine.now).revisions (group ∷ [])) }
    requires some { StandsForSome (arc_value engine.now) }
    ensures taken { (history : History) → StandsFor (arc_value engine.now) history → inserted_count history ≤ (arc_value engine.now).limit
        → IfOk result (IsAfter history (undid history (undone_by history (group ∷ [])))) }
    ensures made { IfOk result (IsStepFrom (arc_value engine.now)) }
{
    let mut next = engine.copy(alloc)?;
    let change = turn_group(alloc, &mut next, group)?;
    Ok(shared_step(alloc, next, change)?)
}

fn turn_group(alloc: Global, engine: &mut Engine, group: u64) -> Result<Change, NoMemory>
    requires may { MayAskUndo engine.old.revisions (undone_by engine.old.revisions (group ∷ [])) }
    requires agrees { AgreesOnCollected engine.old.revisions (undone_by engine.old.revisions (group ∷ [])) }
    ensures stands { (history : History) → StandsFor engine.old history
        → OnOk result (StandsFor engine.new (undid history (undone_by history (group ∷ [])))) }
    ensures change { (history : History) → StandsFor engine.old history
        → IfOk result (IsChange history (undid history (undone_by history (group ∷ [])))) }
    ensures limit { engine.new.limit ≡ engine.old.limit }
{
    match engine.set_undone_by(alloc, &[group]) {
        Ok(change) => Ok(change),
        Err(UndoFault::NoMemory) => Err(NoMemory),
        Err(UndoFault::Frozen(_)) => unreachable!(),
    }
}

// The engine after a change, which copies share.
fn shared_step(alloc: Global, engine: Engine, change: Change) -> Result<EngineStep, NoMemory>
    ensures shared { IfOk result (IsShared engine change) }
    ensures counted { IfOk result (λ made. length (head_shown (arc_value made.engine)) < 2 ^ 64) }
{
    let engine = Arc::new(alloc, engine)?;
    let _counted = engine.head_rope().byte_len();
    Ok(EngineStep { engine, change })
}
