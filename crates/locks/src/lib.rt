// Locks in the caretaker's short form (document 02, request 2): what they say, what is answered, and the laws of both. The code stands above: lock_reader reads and measures,
// lock_pieces and locking write.
#![tactic(auto)]

pub mod tests;
pub mod vocabulary;

// A part of lent bytes from `start` up to `end`.
#[derive(Clone, Copy)]
pub struct Piece {
    pub start: usize,
    pub end: usize,
}
