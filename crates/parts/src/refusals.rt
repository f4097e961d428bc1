// The numbers of refusals, as document 01 has them. What is no token has its own, 3 to 6: tokens::kinds.
// A reserved word where a name of a path must stand.
pub const RESERVED_WORD: u8 = 7;

// What follows a bare attribute.
pub const BARE_ATTRIBUTE: u8 = 8;

// A name after `is` that is no type there.
pub const NO_TYPE: u8 = 9;

// Any other token that is not admitted, or the end of the text inside a policy.
pub const NOT_ADMITTED: u8 = 10;

// A name that makes a path after action other than `name`.
pub const NO_ACTION_PATH: u8 = 11;

// What would put conditions 33 levels deep.
pub const TOO_DEEP: u8 = 12;

// A string after `like` that is no pattern.
pub const NO_PATTERN: u8 = 13;

// The 17th literal of a list.
pub const TOO_MANY_LITERALS: u8 = 14;

// The effect of the 65th policy.
pub const TOO_MANY_POLICIES: u8 = 15;

// A name that makes a path too long.
pub const PATH_TOO_LONG: u8 = 16;

// A string that is not UTF-8.
pub const NOT_UTF8: u8 = 17;
