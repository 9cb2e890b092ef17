// A direct finder: every answer straight from the definitions, by counting figures in the rows themselves.
#![tactic(auto)]

mod back;
mod counts;
pub mod find;
pub mod gaps;
mod phrase;
pub mod run;
