// What a condition can be found to be, and what can be decided. Here are the types; specs/ has what they mean.
#![tactic(auto)]

// Whether a condition is true; or that an operator met an absent attribute.
#[derive(Clone, Copy)]
pub enum Verdict {
    Yes,
    No,
    Missing,
}

// What is decided: allowed or forbidden by a policy, by its number from 1 on; nothing satisfied; or the system, which may do all.
#[derive(Clone, Copy)]
pub enum Decision {
    Allowed(usize),
    Forbidden(usize),
    Nothing,
    System,
}

// A decision with its mark: bit n - 1 is set exactly when policy n is satisfied, and none for the system.
#[derive(Clone, Copy)]
pub struct Marked {
    pub d: Decision,
    pub mark: u64,
}
