// Reserved words compared where they stand in a text: by the first byte, then the others, four at once where there are more, then by a byte that may not go on with the word.
ghost use Rattle.std.specs.Prelude.{◌≡◌, ◌++◌, ◌+◌, ◌<◌, ◌≤◌, ◌^◌, Some, length};
ghost use Rattle.tokens.specs.Tokens.{token};
ghost use Rattle.words.specs.Standing.{ends_in, reserved_at};

use slices::pieces::stands;
use tokens::classes::{Sort, is_of};
use tokens::kinds;
use tokens::reader::Token;

// Whether these bytes stand at a place, and end the word there.
fn ends_in<const N: usize>(text: &[u8], at: usize, bytes: &[u8; N]) -> bool
    requires { at + N < length text.now }
    ensures { result ≡ ends_in bytes.now text.now at }
{
    stands(text, at, bytes) && !is_of(Sort::WordBytes, text[at + N])
}

// The same for a longer word, its first four bytes by themselves: these are compared as one number.
fn four_and<const N: usize>(text: &[u8], at: usize, four: &[u8; 4], rest: &[u8; N]) -> bool
    requires { at + 4 + N < length text.now }
    ensures { result ≡ ends_in (four.now ++ rest.now) text.now at }
{
    stands(text, at, four) && ends_in(text, at + 4, rest)
}

// The reserved word of a kind and so many bytes.
fn word(kind: u8, start: usize, size: usize) -> Option<Token>
    requires { start + size < 2 ^ 64 }
    ensures { result ≡ Some (token kind start (start + size)) }
{
    Some(Token {
        kind,
        start,
        end: start + size,
    })
}

// The reserved word at a place, if there is one. The longest has 11 bytes, and one more is looked at.
pub fn reserved_at(text: &[u8], start: usize) -> Option<Token>
    requires { start + 12 ≤ length text.now }
    ensures { result ≡ reserved_at text.now start }
{
    let at = start + 1;
    match text[start] {
        b'a' if four_and(text, at, b"ctio", b"n") => word(kinds::ACTION, start, 6),
        b'c' if four_and(text, at, b"onta", b"insAll") => word(kinds::CONTAINS_ALL, start, 11),
        b'c' if four_and(text, at, b"onta", b"insAny") => word(kinds::CONTAINS_ANY, start, 11),
        b'e' if ends_in(text, at, b"nv") => word(kinds::ENV, start, 3),
        b'e' if ends_in(text, at, b"lse") => word(kinds::ELSE, start, 4),
        b'f' if four_and(text, at, b"orbi", b"d") => word(kinds::FORBID, start, 6),
        b'f' if ends_in(text, at, b"alse") => word(kinds::FALSE, start, 5),
        b'h' if ends_in(text, at, b"as") => word(kinds::HAS, start, 3),
        b'i' if ends_in(text, at, b"s") => word(kinds::IS, start, 2),
        b'i' if ends_in(text, at, b"n") => word(kinds::IN, start, 2),
        b'i' if ends_in(text, at, b"f") => word(kinds::IF, start, 2),
        b'l' if ends_in(text, at, b"ike") => word(kinds::LIKE, start, 4),
        b'p' if four_and(text, at, b"ermi", b"t") => word(kinds::PERMIT, start, 6),
        b'p' if four_and(text, at, b"rinc", b"ipal") => word(kinds::PRINCIPAL, start, 9),
        b'r' if four_and(text, at, b"esou", b"rce") => word(kinds::RESOURCE, start, 8),
        b't' if ends_in(text, at, b"rue") => word(kinds::TRUE, start, 4),
        b't' if ends_in(text, at, b"hen") => word(kinds::THEN, start, 4),
        b'w' if ends_in(text, at, b"hen") => word(kinds::WHEN, start, 4),
        _ => None,
    }
}
