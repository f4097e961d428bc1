// The sizes of a question: as many bytes as a bag; how many columns it may have, and how many candidates a column.
use bags::sizes::MOST_BAG_BYTES;

pub const MOST_QUESTION_BYTES: usize = MOST_BAG_BYTES;

pub const MOST_COLUMNS: usize = 6;

pub const MOST_CANDIDATES: usize = 8;
