// The line and the column of a byte of a rule text.
#![tactic(auto)]

ghost use Rattle.std.specs.Prelude.{◌≡◌, ◌<◌, ◌≤◌, ◌+◌, ◌^◌, length, take};
ghost use Rattle.places.specs.Places.{up_to_quote, judged, behind_byte, columns_taken, past, place_of};

use utf8::{goes_on, is_utf8};

// A line and a column, from 1.
#[derive(Clone, Copy)]
pub struct Place {
    pub line: usize,
    pub column: usize,
}

// What counts as a column: outside strings each byte, in a string that is UTF-8 characters, in any other each byte again.
#[derive(Clone, Copy)]
pub enum Counting {
    Outside,
    Characters,
    Bytes,
}

// How many columns a byte takes: one, or none where it goes on a character that counts.
#[tactic(auto, unfolding(crate::specs::Places::columns_taken))]
fn columns_taken(k: Counting, b: u8) -> usize
    ensures is { result ≡ columns_taken k b }
    ensures few { result ≤ 1 }
{
    match k {
        Counting::Characters if goes_on(b) => 0,
        _ => 1,
    }
}

// The place after a byte.
#[tactic(auto, unfolding(crate::specs::Places::past))]
fn past_byte(k: Counting, p: Place, b: u8) -> Place
    requires { (p.line + 1 < 2 ^ 64) × (p.column + 1 < 2 ^ 64) }
    ensures is { result ≡ past k b p }
    ensures near { (result.line ≤ p.line + 1) × (result.column ≤ p.column + 1) }
{
    if b == b'\n' {
        Place {
            line: p.line + 1,
            column: 1,
        }
    } else {
        Place {
            line: p.line,
            column: p.column + columns_taken(k, b),
        }
    }
}

// How many bytes stand before the next quote, or in all.
fn quote_in(rest: &[u8]) -> usize
    ensures is { take result rest.now ≡ up_to_quote rest.now }
    ensures there { result ≤ length rest.now }
{
    rest.iter().position(|&b| b == b'"').unwrap_or(rest.len())
}

// How the bytes of a string count: it is judged whole, up to the next quote or the end of the text.
fn judge(rest: &[u8]) -> Counting
    ensures { result ≡ judged rest.now }
{
    if is_utf8(&rest[..quote_in(rest)]) {
        Counting::Characters
    } else {
        Counting::Bytes
    }
}

// How the bytes behind the byte b count.
#[tactic(auto, unfolding(crate::specs::Places::behind_byte))]
fn behind_byte(k: Counting, b: u8, rest: &[u8]) -> Counting
    ensures { result ≡ behind_byte b rest.now k }
{
    if b != b'"' {
        return k;
    }
    match k {
        Counting::Outside => judge(rest),
        Counting::Characters | Counting::Bytes => Counting::Outside,
    }
}

// The place of the byte at an offset, or of the text's end.
pub fn place_of(text: &[u8], at: usize) -> Place
    requires { at ≤ length text.now }
    ensures { result ≡ place_of text.now at }
{
    let mut p = Place { line: 1, column: 1 };
    let mut k = Counting::Outside;
    for i in 0..at {
        let b = text[i];
        p = past_byte(k, p, b);
        k = behind_byte(k, b, &text[i + 1..]);
    }
    p
}
