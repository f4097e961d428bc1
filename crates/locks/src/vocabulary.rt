// Where the parts of an entry of a vocabulary lie, and the sorts of its word.
// An entry's sort, its word from `word` up to `stop`, its path from `path` up to `end`, and the place behind it; all 0 where no whole entry is.
#[derive(Clone, Copy)]
pub struct EntryPlaces {
    pub sort: u8,
    pub word: usize,
    pub stop: usize,
    pub path: usize,
    pub end: usize,
    pub next: usize,
}

// The sorts of words.
pub const EQUALITY: u8 = 1;

pub const MEMBERSHIP: u8 = 2;

pub const NUMBER: u8 = 3;
