// A whole life of calls on one slot, and the promise about it.
#![tactic(auto)]

pub mod calls;
pub mod chains;
mod making;
pub mod performing;
