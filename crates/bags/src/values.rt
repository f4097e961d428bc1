// Values, by their kinds.
ghost use Rattle.std.specs.Prelude.{◌≡◌};
ghost use Rattle.bags.specs.Values.{string_end, number_end, flag_end, list_end, value_end};

use crate::reading::{Thing, many_end};
use crate::sizes::MOST_STRINGS;
use numbers::bits::is_number_at;
use tokens::sizes::MOST_STRING_BYTES;

// The kind of an absent attribute: no entry has it, a column's candidate may.
pub const ABSENT: u8 = 0;

pub const STRING: u8 = 1;

pub const NUMBER: u8 = 2;

pub const FLAG: u8 = 3;

pub const LIST: u8 = 4;

// A string: a length byte, and that many bytes.
pub struct Text;

impl Thing for Text {
    ghost ending = { string_end };

    fn end(s: &[u8], at: usize) -> Option<usize> {
        let n = usize::from(*s.get(at)?);
        if n < s.len() - at && n <= MOST_STRING_BYTES {
            Some(at + 1 + n)
        } else {
            None
        }
    }
}

fn number_end(s: &[u8], at: usize) -> Option<usize>
    ensures { result ≡ number_end s.now at }
{
    if at < s.len() && 8 <= s.len() - at && is_number_at(s, at) {
        Some(at + 8)
    } else {
        None
    }
}

fn flag_end(s: &[u8], at: usize) -> Option<usize>
    ensures { result ≡ flag_end s.now at }
{
    if *s.get(at)? <= 1 { Some(at + 1) } else { None }
}

fn list_end(s: &[u8], at: usize) -> Option<usize>
    ensures { result ≡ list_end s.now at }
{
    let n = usize::from(*s.get(at)?);
    if MOST_STRINGS < n {
        return None;
    }
    many_end::<Text>(n, s, at + 1)
}

// The end of the value of a kind.
pub fn value_end(kind: u8, s: &[u8], at: usize) -> Option<usize>
    ensures { result ≡ value_end kind s.now at }
{
    match kind {
        STRING => Text::end(s, at),
        NUMBER => number_end(s, at),
        FLAG => flag_end(s, at),
        LIST => list_end(s, at),
        _ => None,
    }
}
