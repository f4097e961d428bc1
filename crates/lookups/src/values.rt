// Read values.
ghost use Rattle.std.specs.Prelude.{◌≡◌, ℕ, ◌<◌, length, Some};
ghost use Rattle.bags.specs.Values.{value_end};
ghost use Rattle.lookups.specs.Values.{absent, value_number, value_at, Valued};

use bags::values::{ABSENT, FLAG, NUMBER};
use numbers::bits::number_at;

// A value's kind, its number, and the place of the byte after its kind byte. Kind 0 is absent.
#[derive(Clone, Copy)]
pub struct Value {
    pub kind: u8,
    pub number: f64,
    pub place: usize,
}

pub fn absent_value() -> Value
    ensures { result ≡ absent }
{
    Value {
        kind: ABSENT,
        number: 0.0,
        place: 0,
    }
}

// The number of a value that is whole.
fn number_of(kind: u8, s: &[u8], at: usize) -> f64
    requires { (e : ℕ) × (value_end kind s.now at ≡ Some e) }
    ensures { result ≡ value_number kind s.now at }
{
    match kind {
        NUMBER => number_at(s, at),
        FLAG if s[at] == 1 => 1.0,
        _ => 0.0,
    }
}

// The value whose kind byte stands at `k`.
pub fn value_from(s: &[u8], k: usize) -> Value
    requires { Valued s.now k }
    ensures { result ≡ value_at s.now k }
{
    let kind = s[k];
    if kind == ABSENT {
        return absent_value();
    }
    let place = k + 1;
    let number = number_of(kind, s, place);
    Value {
        kind,
        number,
        place,
    }
}

// The value whose kind byte stands at `k`, or none where `k` is the end of the bytes.
pub fn value_at(s: &[u8], k: usize) -> Value
    requires { k < length s.now → Valued s.now k }
    ensures { result ≡ value_at s.now k }
{
    if k < s.len() {
        value_from(s, k)
    } else {
        absent_value()
    }
}
