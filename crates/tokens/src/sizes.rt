// The sizes of a rule text, as document 01 lists them: how many bytes a text may have, and how many policies.
pub const MOST_TEXT_BYTES: usize = 8192;

pub const MOST_POLICIES: usize = 64;

// How many bytes a word may have, a path with its dots, and a string inside its quotes.
pub const MOST_WORD_BYTES: usize = 64;

pub const MOST_PATH_BYTES: usize = 64;

pub const MOST_STRING_BYTES: usize = 127;

// How many digits a number may have, before and after its point.
pub const MOST_DIGITS: usize = 15;

// How many literals a list may have.
pub const MOST_LITERALS: usize = 16;

// How many characters and how many wildcards a pattern may have.
pub const MOST_PATTERN_CHARACTERS: usize = 100;

pub const MOST_WILDCARDS: usize = 5;

// How many levels a condition may have inside it: the braces after `when` are the level before these.
pub const MOST_INSIDE: usize = 31;
