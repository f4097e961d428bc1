// The rows of a question, the pages of its sheet and its tally, for any decisions of the rows: definitions and their laws. The code is in choices and listing.
// What a page answers: how many rows are written, and the row to go on with.
#![tactic(auto)]

#[derive(Clone, Copy)]
pub struct Page {
    pub written: usize,
    pub next: usize,
}

// How many bytes a listed row takes.
pub const ROW_SIZE: usize = 14;
