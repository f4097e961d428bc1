// Where the parts of a test lie.
// A test: its word's sort, the word's path in the vocabulary from `path` up to `stop`, the kind of the mark behind the word, the value in the lock from `value` up to `end`, and the
// place of the `&` behind it or the lock's end. All 0 where no test is.
#[derive(Clone, Copy)]
pub struct TestPlaces {
    pub sort: u8,
    pub path: usize,
    pub stop: usize,
    pub mark: u8,
    pub value: usize,
    pub end: usize,
    pub next: usize,
}
