// The kinds of tokens, as specs/Kinds.antt has them. A mark of one byte is its byte, as b'(' or b';'.
pub const END_OF_TEXT: u8 = 0;

// A refused token has its refusal's number.
pub const BAD_BYTE: u8 = 3;

pub const COLON: u8 = 4;

pub const UNENDED: u8 = 5;

pub const TOO_LONG: u8 = 6;

// A word that is not reserved, a string, a number.
pub const NAME: u8 = b'n';

pub const STRING: u8 = b'"';

pub const NUMBER: u8 = b'0';

// The marks of two bytes: `&&`, `||`, `==`, `!=`, `<=`, `>=`.
pub const AND: u8 = b'&';

pub const OR: u8 = b'|';

pub const EQUAL: u8 = b'=';

pub const NOT_EQUAL: u8 = b'!' + WITH_EQUALS;

pub const AT_MOST: u8 = b'<' + WITH_EQUALS;

pub const AT_LEAST: u8 = b'>' + WITH_EQUALS;

// What an `=` adds to the mark before it.
pub const WITH_EQUALS: u8 = 128;

// The reserved words, in document 01's order.
pub const PERMIT: u8 = 201;

pub const FORBID: u8 = 202;

pub const WHEN: u8 = 203;

pub const PRINCIPAL: u8 = 204;

pub const RESOURCE: u8 = 205;

pub const ACTION: u8 = 206;

pub const ENV: u8 = 207;

pub const IS: u8 = 208;

pub const IN: u8 = 209;

pub const HAS: u8 = 210;

pub const LIKE: u8 = 211;

pub const TRUE: u8 = 212;

pub const FALSE: u8 = 213;

pub const IF: u8 = 214;

pub const THEN: u8 = 215;

pub const ELSE: u8 = 216;

pub const CONTAINS_ALL: u8 = 217;

pub const CONTAINS_ANY: u8 = 218;
