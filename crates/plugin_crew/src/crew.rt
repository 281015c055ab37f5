ghost use Rattle.std.specs.Prelude.{ℕ, ◌≡◌, ◌<◌, ◌≤◌, ◌+◌, [], ◌∷◌, length, take, drop, vec_len, vec_capacity, List, IfOk, IfErr};
ghost use Rattle.plugin_session.specs.Alone.{IsReady, OnlyAdds};
ghost use Rattle.plugin_session.specs.Visit.{Visit};
ghost use Rattle.plugin_crew.specs.declared.member.Member.{Member};
ghost use Rattle.plugin_crew.specs.Alone.{AreMembersOf, HasRound, HasVisit, IsMemberOf};
ghost use Rattle.plugin_crew.specs.Member.{AreNew, are_served, begun_of, plugins_of};

use crate::member::{Member, visit};
use plugin_session::Plugin;
use std::alloc::Global;
use xi_plain::Object;

/// The plugins of a run in turns.
#[derive(Drop)]
pub struct Crew<P> {
    pub(crate) members: Vec<Member<P>>,
    // Where the plugins go at the end.
    back: Vec<P>,
    ghost empty: { back.items ≡ [] },
    ghost room: { vec_len members ≤ vec_capacity back },
}

// Gives the plugin at this place one visit at the object, where its session goes on.
fn visit_at<O: Object, P: Plugin>(
    alloc: Global,
    members: &mut Vec<Member<P>>,
    at: usize,
    object: &mut O,
)
    requires inside { at < vec_len members.old }
    requires serving { (member : Member P) → drop at members.old.items ≡ member ∷ drop (at + 1) members.old.items
        → (first : O) × (visits : List Visit) × IsMemberOf O.journal O.serves O.answers O.grown P.told member.caller first
        object.old member visits }
    requires ready { (member : Member P) → drop at members.old.items ≡ member ∷ drop (at + 1) members.old.items
        → IsReady O.fits member.caller object.old }
    ensures length { vec_len members.new ≡ vec_len members.old }
    ensures kept { take at members.new.items ≡ take at members.old.items }
    ensures rest { drop (at + 1) members.new.items ≡ drop (at + 1) members.old.items }
    ensures grown { O.grown object.old object.new }
    ensures visited { (member next : Member P) × (drop at members.old.items ≡ member ∷ drop (at + 1) members.old.items)
        × (drop at members.new.items ≡ next ∷ drop (at + 1) members.old.items)
        × (next.caller ≡ member.caller) × (next.began ≡ member.began) × OnlyAdds member.caller (O.journal object.old) (O.journal object.new)
        × HasVisit O.journal O.serves O.answers O.grown P.told member.caller object.old member next object.new }
{
    visit(alloc, &mut members[at], object);
}

impl<P: Plugin> Crew<P> {
    /// The plugins, numbered from 1 in their order, before the first turn. Without memory they come back.
    pub fn of(alloc: Global, plugins: Vec<P>) -> Result<Crew<P>, Vec<P>>
        requires { vec_len plugins ≤ 64 }
        ensures members { IfOk result (λ crew. AreNew 1 plugins.items crew.members.items) }
        ensures back { IfErr result (λ back. back.items ≡ plugins.items) }
    {
        let Ok(mut members) = Vec::with_capacity(alloc, plugins.len()) else {
            return Err(plugins);
        };
        let Ok(back) = Vec::with_capacity(alloc, plugins.len()) else {
            return Err(plugins);
        };
        let mut caller = 1;
        for plugin in plugins {
            members.push_reserved(Member::new(alloc, caller, plugin));
            caller += 1;
        }
        Ok(Crew { members, back })
    }

    /// The plugins, in their order.
    pub fn into_plugins(self) -> Vec<P>
        ensures { result.items ≡ plugins_of self.members.items }
    {
        let Crew { members, mut back } = self;
        for member in members {
            let Member {
                caller: _,
                port: _,
                plugin,
                began: _,
                standing: _,
            } = member;
            back.push_reserved(plugin);
        }
        back
    }

    /// Whether no session ended for want of memory.
    pub fn all_served(&self) -> bool
        ensures { result ≡ are_served self.now.members.items }
    {
        for member in &self.members {
            if member.standing.is_short() {
                return false;
            }
        }
        true
    }

    /// Gives each plugin whose session goes on one visit at the object, in their order. An idle one takes no memory.
    pub fn round<O: Object>(&mut self, alloc: Global, object: &mut O)
        requires serving { (first : O) × (visits : List (List Visit)) × AreMembersOf O.journal O.serves O.answers O.grown P.told
            first object.old self.old.members.items visits }
        requires ready { (caller : ℕ) → 0 < caller → caller ≤ length self.old.members.items → IsReady O.fits caller object.old }
        ensures length { length self.new.members.items ≡ length self.old.members.items }
        ensures begun { begun_of self.new.members.items ≡ begun_of self.old.members.items }
        ensures grown { O.grown object.old object.new }
        ensures round { HasRound O.journal O.serves O.answers O.grown P.told object.old self.old.members.items
            self.new.members.items object.new }
    {
        for at in 0..self.members.len() {
            visit_at(alloc, &mut self.members, at, object);
        }
    }
}
