// Requests: the forms of subject, action and resource, and which policies' targets match one.
#![tactic(auto)]

pub mod forms;
pub mod matching;

// The types of a request's subject and resource, each by its number among those of its kind.
#[derive(Clone, Copy)]
pub struct Types {
    pub subject: usize,
    pub resource: usize,
}
