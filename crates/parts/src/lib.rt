// What every reader of a text is given and answers, and the readers of paths, operands and lists.
// Each goes on from what is reached, puts the entries of what it reads into one table, compares them with another, and answers what is reached then, or a refusal.
#![tactic(auto)]

pub mod answers;
pub mod attributes;
pub mod lists;
pub mod paths;
pub mod refusals;
