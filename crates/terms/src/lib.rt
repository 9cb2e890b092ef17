// The words that everybody uses: limits, refusals and answers, and in specs/ the definitions that all contracts rest on.
#![tactic(auto)]

pub mod answer;
pub mod checks;
pub mod limits;
pub mod refusal;
pub mod theorems;
