// What a step is: the three kinds, their sound numbers and their bytes in a sheet.
#![tactic(auto)]

pub mod kinds;
pub mod lane;
pub mod mask;
pub mod note;
pub mod step;
