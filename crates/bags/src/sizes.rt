// The sizes of a bag: how many bytes it may have, how many entries a section, and how many strings a list.
use tokens::sizes::MOST_LITERALS;

pub const MOST_BAG_BYTES: usize = 4096;

pub const MOST_ENTRIES: usize = 32;

pub const MOST_STRINGS: usize = MOST_LITERALS;
