// Reads a sheet: a kind letter, q, a phrase and a take.
#![tactic(auto)]

pub mod fault;
mod head;
mod judge;
pub mod kind;
pub mod parts;
pub mod read;
mod rest;
