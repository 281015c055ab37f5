ghost use Rattle.std.specs.Prelude.{◌≡◌, codes, Option, Some, IfOk, IsAscii, option_map};
ghost use Rattle.doc_text.specs.Fault.{DocRefuses};
ghost use Rattle.doc_text.specs.Refusal.{DocRefusal, of_range};
ghost use Rattle.xi_plain.specs.declared.command.Fault.TheVariants.{BadParams};
ghost use Rattle.entry_lines.specs.PluginAnswer.{faults, gives, verdict_of};
ghost use Rattle.session_step.specs.PluginStep.{body_data, refused_verdict};

use crate::act::VIEW_MEMBER;
use doc_session::{Body, DocFault, Misplaced};
use entry_lines::PluginReply;
use plain_text::{NoMemory, Text};
use std::alloc::Global;
use xi_plain::Fault;

/// What a plugin is answered where its document refuses what it asks.
pub(crate) fn refused_by(alloc: Global, fault: DocFault) -> Result<PluginReply, NoMemory>
    ensures { (refusal : Option DocRefusal) → DocRefuses refusal fault
        → IfOk result (λ reply. option_map refused_verdict refusal ≡ Some (verdict_of reply)) }
{
    match fault {
        DocFault::Unknown(head) => Ok(PluginReply::Unknown(head)),
        DocFault::Collected(floor) => Ok(PluginReply::Collected(floor)),
        DocFault::Misfit(first) => Ok(PluginReply::Misfit(first)),
        DocFault::Spent(total) => Ok(PluginReply::Spent(total)),
        DocFault::BadParams(member) => misplaced(alloc, member),
        DocFault::NoMemory => Err(NoMemory),
    }
}

/// What a plugin is answered where the view that it names is not open.
pub(crate) fn no_view(alloc: Global) -> Result<PluginReply, NoMemory>
    ensures { IfOk result (λ reply. verdict_of reply ≡ faults (BadParams (codes "view_id"))) }
{
    bad_member(alloc, VIEW_MEMBER)
}

fn misplaced(alloc: Global, member: Misplaced) -> Result<PluginReply, NoMemory>
    ensures { IfOk result (λ reply. verdict_of reply ≡ refused_verdict (of_range member)) }
{
    match member {
        Misplaced::Start => bad_member(alloc, "start"),
        Misplaced::Len => bad_member(alloc, "len"),
        Misplaced::Spans => bad_member(alloc, "spans"),
    }
}

// The refusal of a member with this name.
fn bad_member(alloc: Global, name: &str) -> Result<PluginReply, NoMemory>
    requires { IsAscii name.now }
    ensures { IfOk result (λ reply. verdict_of reply ≡ faults (BadParams name.now)) }
{
    let member = Text::from_ascii(alloc, name)?;
    Ok(PluginReply::Refused(Fault::BadParams(member)))
}

/// What a plugin is answered by a document that takes what it asks.
pub(crate) fn result_of(body: Body) -> PluginReply
    ensures { verdict_of result ≡ gives (body_data body) }
{
    match body {
        // What was copied is told to the front end alone.
        Body::Null | Body::Copied { .. } => PluginReply::Null,
        Body::Edited { rev, group } => PluginReply::Edited { rev, group },
        Body::Chunk { text, offset } => PluginReply::Chunk { text, offset },
        Body::Lines(count) => PluginReply::Lines(count),
    }
}
