// The grammar of rule texts over their tokens: productions, the reader that finds a text's policies, and what is promised of it. Definitions and theorems, no
// code but one type.
#![tactic(auto)]

// The versions of the rules. Under the first an absent attribute makes its comparison, `like`, `in` or contains false; under the second it makes the policy unsatisfied.
#[derive(Clone, Copy)]
pub enum Version {
    First,
    Second,
}
