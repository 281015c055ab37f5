// The end of a run on threads.
ghost use Rattle.std.specs.Prelude.{◌≡◌, ◌≤◌, ◌<◌, ◌+◌, ◌&&◌, true, List, [], ◌∷◌, ◌++◌, vec_len, vec_capacity, IfOk};
ghost use Rattle.xi_plain.specs.declared.entry.Entry.{Entry};
ghost use Rattle.plugin_session.specs.Hired.{Hiring};
ghost use Rattle.plugin_crew.specs.declared.post.Gathered.{Gathered};
ghost use Rattle.plugin_crew.specs.Place.{givens_of};
ghost use Rattle.plugin_crew.specs.Standing.{is_served};
ghost use Rattle.plugin_crew.specs.Threads.{AreBack, HasEnded, HaveServed, all_in, passes_in, plugins_in};

use crate::post::{Gathered, Post};
use plugin_session::Plugin;
use room_lock::{Pass, Room};
use std::alloc::Global;
use std::sync::Wait;
use std::thread::Threads;
use xi_plain::{NoMemory, Object};

/// What came back from a run on threads: the passes of all, from caller 0 on, and the plugins, in their order.
#[derive(Drop)]
pub struct Back<P> {
    pub passes: Vec<Pass>,
    pub plugins: Vec<P>,
    /// Whether no session ended for want of memory.
    pub all_served: bool,
}

impl<P> Back<P> {
    /// Nothing yet, with room for so many plugins.
    pub fn with_room(alloc: Global, plugins: usize) -> Result<Back<P>, NoMemory>
        requires { plugins ≤ 64 }
        ensures none { IfOk result (λ back. (back.passes.items ≡ []) × (back.plugins.items ≡ [])) }
        ensures room { IfOk result (λ back. (plugins < vec_capacity back.passes) × (plugins ≤ vec_capacity back.plugins)) }
    {
        Ok(Back {
            passes: Vec::with_capacity(alloc, plugins + 1)?,
            plugins: Vec::with_capacity(alloc, plugins)?,
            all_served: true,
        })
    }
}

// Puts it behind those that are there.
fn put<P>(back: Back<P>, came: Gathered<P>) -> Back<P>
    requires passes { vec_len back.passes < vec_capacity back.passes }
    requires plugins { vec_len back.plugins < vec_capacity back.plugins }
    ensures passes { result.passes.items ≡ back.passes.items ++ came.pass ∷ [] }
    ensures plugins { result.plugins.items ≡ back.plugins.items ++ came.plugin ∷ [] }
    ensures all { result.all_served ≡ (back.all_served && is_served came.standing) }
    ensures room { (vec_capacity result.passes ≡ vec_capacity back.passes) × (vec_capacity result.plugins ≡ vec_capacity back.plugins) }
    ensures count { (vec_len result.passes ≡ vec_len back.passes + 1) × (vec_len result.plugins ≡ vec_len back.plugins + 1) }
{
    let Back {
        mut passes,
        mut plugins,
        all_served,
    } = back;
    let Gathered {
        pass,
        plugin,
        standing,
    } = came;
    passes.push_reserved(pass);
    plugins.push_reserved(plugin);
    Back {
        passes,
        plugins,
        all_served: all_served && !standing.is_short(),
    }
}

// Puts the passes and the plugins behind those that are there, once all sessions are over and all threads have ended.
pub(crate) fn gather<O: Object, R: Threads + Wait, P: Plugin>(
    alloc: Global,
    rt: &R,
    posts: Vec<Post<'_, O, R, P>>,
    back: Back<P>,
) -> Back<P>
    requires all { back.all_served ≡ true }
    requires passes { vec_len back.passes + vec_len posts ≤ vec_capacity back.passes }
    requires plugins { vec_len back.plugins + vec_len posts ≤ vec_capacity back.plugins }
    ensures { (cames : List (Gathered P)) × HaveServed O.serves O.answers P.told (givens_of posts.entry.items) cames
        × (result.passes.items ≡ back.passes.items ++ passes_in cames)
        × (result.plugins.items ≡ back.plugins.items ++ plugins_in cames) × (result.all_served ≡ all_in cames) }
{
    let mut back = back;
    for post in posts {
        let came = post.gathered(alloc, rt);
        back = put(back, came);
    }
    back
}

/// What a run on threads came to.
#[derive(Drop)]
pub struct Finished<O, P> {
    pub object: O,
    /// The plugins, in their order.
    pub plugins: Vec<P>,
    /// Whether no session ended for want of memory.
    pub all_served: bool,
}

impl<P: Plugin> Back<P> {
    /// Ends the room, to which all came back.
    pub fn finish<O: Object>(self, room: Room<O>) -> Finished<O, P>
        requires { (seen : List Entry) × (givens : List (Hiring O P))
            × AreBack O.serves O.answers P.told room.table.shared.table_id room.table.shared.key.first.value seen givens
            self.passes.items self.plugins.items self.all_served }
        ensures { (seen : List Entry) (givens : List (Hiring O P))
            → AreBack O.serves O.answers P.told room.table.shared.table_id room.table.shared.key.first.value seen givens
            self.passes.items self.plugins.items self.all_served
            → HasEnded O.journal O.serves O.answers O.grown P.told room.table.shared.key.first.value result.object seen givens
            result.plugins.items result.all_served }
    {
        let Back {
            passes,
            plugins,
            all_served,
        } = self;
        Finished {
            object: room.close(passes),
            plugins,
            all_served,
        }
    }
}
