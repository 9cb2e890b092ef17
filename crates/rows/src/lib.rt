// Rows of marks and their least sum, in a list or in a tree; and the lamp's ring.
#![tactic(auto)]

mod lamp;
pub mod lamp_ring;
pub mod mark;
mod marks;
pub mod plain;
mod refusals;
pub mod row;
mod summary;
mod tree;
pub mod tree_row;
