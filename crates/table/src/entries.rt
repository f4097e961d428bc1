// The kinds of entries; docs/TABLE.md says what stands before each, and what its two fields are.
// Attributes, by their roots.
pub const PRINCIPAL: u8 = 1;

pub const RESOURCE: u8 = 2;

pub const ENV: u8 = 3;

pub const ACTION: u8 = 4;

// `has` after each of these roots: its kind and as many more as there are roots.
pub const ROOTS: u8 = 4;

pub const HAS_PRINCIPAL: u8 = 5;

pub const HAS_RESOURCE: u8 = 6;

pub const HAS_ENV: u8 = 7;

pub const HAS_ACTION: u8 = 8;

// Literals; the last two are also conditions.
pub const STRING: u8 = 9;

pub const NUMBER: u8 = 10;

pub const TRUE: u8 = 11;

pub const FALSE: u8 = 12;

// Comparators.
pub const EQUAL: u8 = 13;

pub const NOT_EQUAL: u8 = 14;

pub const MORE: u8 = 15;

pub const AT_LEAST: u8 = 16;

pub const LESS: u8 = 17;

pub const AT_MOST: u8 = 18;

// The other operators.
pub const LIKE: u8 = 19;

pub const IN_LIST: u8 = 20;

pub const IN_ATTRIBUTE: u8 = 21;

pub const CONTAINS_ALL: u8 = 22;

pub const CONTAINS_ANY: u8 = 23;

// Conditions that hold others.
pub const NOT: u8 = 24;

pub const BRACKETS: u8 = 25;

pub const AND: u8 = 26;

pub const OR: u8 = 27;

pub const IF: u8 = 28;

// The principal or the resource part: bare, with `is`, with `==`.
pub const BARE_PART: u8 = 29;

pub const TYPED_PART: u8 = 30;

pub const PINNED_PART: u8 = 31;

// The action part: bare, with a list.
pub const BARE_ACTION: u8 = 32;

pub const LISTED_ACTION: u8 = 33;

// Policies.
pub const PERMIT: u8 = 34;

pub const FORBID: u8 = 35;

// Under version 2 the kind of a principal part is so much higher, past all others.
pub const SECOND_STEP: u8 = 7;

// A bare principal part under version 2.
pub const BARE_SECOND: u8 = 36;
