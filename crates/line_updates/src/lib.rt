//! The update of a front end that has some lines of a view's screen, where some of them stay: what the line of each piece comes to the screen by,
//! and which lines the front end has then.
//!
//! To a contract what a front end has is a truth for each line of its screen, and the lines that stay are the partners of the lines of a layout;
//! `specs/Told.antt` has the update, which is the plan of `plain_screen`. No call lays a text out: it renders the lines that are told, and no others.
#![tactic(auto)]

mod asked;
mod plan;

pub use asked::has_asked;
pub use plan::update_of;
