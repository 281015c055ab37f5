ghost use Rattle.std.specs.Prelude.{◌≡◌, ◌<◌, length, slice_set};
ghost use Rattle.session_step.specs.PluginEffects.{HasPlace, views_with};

use crate::opened::Opened;
use plain_text::List;
use std::alloc::Global;
use std::mem;

/// What becomes of the views that are open.
#[derive(Drop)]
pub enum NextViews {
    /// They stay as they are.
    Same,
    /// The one that stands there is this one.
    One { at: usize, opened: Opened },
    /// They are these.
    All(List<Opened>),
}

/// Puts them in place, which takes no memory and copies none.
pub fn put_views(alloc: Global, views: &mut List<Opened>, next: NextViews)
    requires { HasPlace views.old next }
    ensures { views.new ≡ views_with views.old next }
{
    match next {
        NextViews::Same => {}
        NextViews::One { at, opened } => set(alloc, views, at, opened),
        NextViews::All(next) => *views = next,
    }
}

fn set(alloc: Global, views: &mut List<Opened>, at: usize, opened: Opened)
    requires { at < length views.old }
    ensures { views.new ≡ slice_set views.old at opened }
{
    let mut items = mem::replace(views, List::new(alloc)).into_vec();
    items[at] = opened;
    *views = List::from_vec(items);
}
