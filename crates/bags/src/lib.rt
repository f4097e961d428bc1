// The form of a bag. A reader says where the thing that it reads ends, or None where it is broken, as the definition of the same name does.
#![tactic(auto)]

pub mod paths;
pub mod reading;
pub mod sections;
pub mod sizes;
pub mod values;
