//! Plays one side of a trace against a real other side.
//!
//! [`script`] turns a trace into steps, one for each line. [`play`] carries them out over one connection: it sends the
//! lines of its own side, and compares received bytes with the lines of the other side.
#![tactic(auto)]

mod difference;
pub mod laws;
mod line;
mod listening;
mod marks;
mod messages;
mod naming;
mod numbers;
mod player;
mod role;
mod scripts;
mod silence;
mod step;
mod texts;
mod unheard;

pub use difference::{Difference, Unplayed};
pub use line::ScriptLineError;
pub use listening::listen_on;
pub use naming::NameFault;
pub use numbers::{Names, NumberField};
pub use player::play;
pub use role::Role;
pub use scripts::{ScriptFault, script};
pub use silence::stay_silent;
pub use step::{Action, ScriptStep};
pub use texts::{difference_text, surplus_text};
