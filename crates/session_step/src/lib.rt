//! What an entry of a session makes of its views: the plain session, and the same in memory.
//!
//! `specs/Session.antt` has the plain session, which is a fold over the journal. [`done`] does in memory what one command of the front end
//! comes to, beside the views that are open, once it is known what the shelf gave it: it makes its piece and the views after it, and
//! changes nothing. [`plugin_act`] does the same for an act of a plugin, which `specs/PluginStep.antt` has: a refusal, or the next document of
//! one view with what is told of it, put in place last by [`put_views`], which takes no memory. Who keeps journal, shelf and sink is
//! `core_session`.
#![tactic(auto)]

mod act;
mod acted;
mod after;
mod command;
mod config;
mod given;
mod made;
mod news;
mod next;
mod opened;
mod opened_doc;
mod refused;
mod stepped;
mod terms;

pub use acted::{Acted, PluginEffects, plugin_act};
pub use after::after_alone;
pub use command::{CommandEffects, done};
pub use config::{FIRST_CONFIG, config_after, opened_after};
pub use given::Given;
pub use made::both;
pub use news::news_of;
pub use next::{NextViews, put_views};
pub use opened::{Opened, place_of};
pub use stepped::{Stepped, ToEach, updates_of};
pub use terms::Terms;
