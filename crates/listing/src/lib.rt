// A sheet to lines.
#![tactic(auto)]

pub mod line;
pub mod list;
pub mod made;
pub mod output;
mod playing;
mod sounds;
pub mod text;
