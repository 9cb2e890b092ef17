// The slot, its rolling and its closed take, and what a closed take hands out.
#![tactic(auto)]

mod driving;
pub mod ones;
mod progress;
mod recent;
mod slot;
pub mod takes;
mod turning;
mod viewing;
