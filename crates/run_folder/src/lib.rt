//! The folder of a run: its tape and its journal, which are saved there and played again.
//!
//! To a contract a folder is its path, and the files are those of the shelf. `specs/Folder.antt` says which two files it has, what saving a run
//! makes of them, and what playing them comes to.
#![tactic(auto)]

mod part;
mod playing;
mod saving;

pub use part::Part;
pub use playing::{Ending, replay_folder};
pub use saving::{Saved, save_run};
