// Figure readers: the one meaning (reader), a reader that holds a phrase or none (holder), two implementations proved to
// it (states, sliding), how far each reaches (reaches), and what every reader does with a list of sounds (listen).
#![tactic(auto)]

mod build;
mod coder;
mod holder;
mod judge;
pub mod listen;
mod number;
pub mod reaches;
pub mod reader;
mod scale;
pub mod sliding;
mod state;
pub mod states;
mod table;
mod tally;
mod window;
