// The tokens of a rule text: what they are, and the classes of bytes. They are read in the crate token_reader.
#![tactic(auto)]

pub mod classes;
pub mod kinds;
pub mod reader;
pub mod runs;
pub mod sizes;
