// Numbers: what a literal of the rule text stands for, the finite numbers of a bag, and how two numbers compare.
#![tactic(auto)]

pub mod bits;
pub mod comparing;
pub mod literals;
